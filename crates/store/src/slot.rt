// Slots side by side in the lent bytes, whatever party stands in them: marked as used, read, written, and looked at for zeros.
ghost use Rattle.std.specs.Prelude.{◌≡◌, true, ◌+◌, ◌*◌, ◌≤◌, ◌<◌, length, get_or, take, drop, eqb};
ghost use Rattle.layout.specs.Layout.{size, sized, fields, packed, Within};
ghost use Rattle.layout.specs.Over.{over};
ghost use Rattle.store.specs.Slots.{all_zero};

// By hand in each part: a static's widths row by row, since its value may call nothing that goes over a table.

// Where slots begin, how many there are, how many bytes each has, and the widths in bits of its numbers.
pub struct Slots<const N: usize> {
    pub begin: usize,
    pub count: usize,
    pub size: usize,
    pub widths: [u8; N],
}

impl<const N: usize> Slots<N> {
    // Whether the mark of slot i says used: a look at one byte.
    pub(crate) fn marked(&self, store: &[u8], i: usize) -> bool
        requires { self.now.begin + i * self.now.size < length store.now }
        ensures { result ≡ eqb (get_or store.now (self.now.begin + i * self.now.size) 0) 1 }
    {
        store[self.begin + i * self.size] == 1
    }

    // The numbers of slot i.
    pub(crate) fn numbers(&self, store: &[u8], i: usize) -> [u64; N]
        requires handled { (sized self.now.widths ≡ true) × (size self.now.widths ≡ self.now.size) }
        requires place { self.now.begin + i * self.now.size + self.now.size ≤ length store.now }
        ensures { result ≡ fields self.now.widths (take (size self.now.widths) (drop (self.now.begin + i * self.now.size) store.now)) }
    {
        let rest = &store[self.begin + i * self.size..];
        let mut v = [0; N];
        layout::take_fields(rest, &self.widths, &mut v);
        v
    }

    // Writes the numbers of slot i.
    pub(crate) fn put(&self, store: &mut [u8], i: usize, v: &[u64; N])
        requires handled { (sized self.now.widths ≡ true) × (size self.now.widths ≡ self.now.size) }
        requires place { self.now.begin + i * self.now.size + self.now.size ≤ length store.old }
        requires within { Within self.now.widths v.now }
        ensures { store.new ≡ over (self.now.begin + i * self.now.size) (packed self.now.widths v.now) store.old }
    {
        let rest = &mut store[self.begin + i * self.size..];
        layout::put_fields(rest, &self.widths, v);
    }
}

// Whether all numbers are 0.
pub(crate) fn blank(vs: &[u64]) -> bool
    ensures { result ≡ all_zero vs.now }
{
    vs.iter().all(|v| *v == 0)
}
