// Numbers in decimal, and texts, written one after another on a page: the bytes that a caller lends, from a place on.
// What they are is in specs/Text.antt, and how a page takes them in specs/Page.antt.
#![tactic(auto)]

ghost use Rattle.std.specs.Prelude.{◌≡◌, [], ◌∷◌, length};
ghost use Rattle.text.specs.Text.{decimal, last_digits};
ghost use Rattle.text.specs.Page.{HasRoom, put_on};

// Bytes that a caller lends, and the place up to which they are written.
// Its fields are its own model: with an `impl Model` (tried) nothing is known of the lent bytes once the page is gone.
#[derive(Drop)]
pub struct Page<'a> {
    pub out: &'a mut [u8],
    pub at: usize,
}

// How many digits x has, 0 one as well.
fn digits(x: u64) -> usize
    ensures { result ≡ length (decimal x) }
{
    x.max(1).ilog10() as usize + 1
}

impl<'a> Page<'a> {
    // Writes a text.
    pub fn text(&mut self, text: &[u8])
        requires { HasRoom (length text.now) self.old }
        ensures { self.new ≡ put_on text.now self.old }
    {
        let end = self.at + text.len();
        self.out[self.at..end].copy_from_slice(text);
        self.at = end;
    }

    // Writes one byte.
    pub fn byte(&mut self, b: u8)
        requires { HasRoom 1 self.old }
        ensures { self.new ≡ put_on (b ∷ []) self.old }
    {
        self.out[self.at] = b;
        self.at += 1;
    }

    // Writes the last n digits of x, the last of them first.
    // By hand: of the bytes that a `for` over `iter_mut().rev()` writes the library says nothing, so no proof closes; forwards, they would be turned round after.
    pub fn digits(&mut self, n: usize, x: u64)
        requires { HasRoom n self.old }
        ensures { self.new ≡ put_on (last_digits n x) self.old }
    {
        let end = self.at + n;
        let out = &mut self.out[self.at..end];
        let mut rest = x;
        for left in (0..n).rev() {
            out[left] = b'0' + (rest % 10) as u8;
            rest /= 10;
        }
        self.at = end;
    }

    // Writes x. A number of 64 bits has 20 digits at most.
    pub fn decimal(&mut self, x: u64)
        requires { HasRoom 20 self.old }
        ensures { self.new ≡ put_on (decimal x) self.old }
    {
        self.digits(digits(x), x);
    }
}
