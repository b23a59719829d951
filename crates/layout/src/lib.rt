// The fields of a record or of a slot, read from bytes and written to bytes, by a layout that is data.
// A layout is a list of widths in bits; the first field stands highest, and the bytes are one big-endian number.
#![tactic(auto)]

ghost use Rattle.std.specs.Prelude.{◌≡◌, true, ◌++◌, ◌+◌, ◌*◌, ◌/◌, ◌%◌, ◌≤◌, ◌<◌, length, take, drop};
ghost use Rattle.layout.specs.Layout.{num, bytes_of, bits, size, sized, fields, packed, Within};
ghost use Rattle.layout.specs.Bounds.{first_outside};
ghost use Rattle.layout.specs.Over.{over};

// The number of the n bytes of s from index at on.
pub fn number(s: &[u8], at: usize, n: usize) -> u64
    requires { (n ≤ 8) × (at + n ≤ length s.now) }
    ensures { result ≡ num (take n (drop at s.now)) }
{
    let mut acc: u64 = 0;
    for b in &s[at..at + n] {
        acc = acc * 256 + u64::from(*b);
    }
    acc
}

// The n bits of s from bit at on: out of eight bytes read at once, where there are so many, and else out of those that hold them.
pub fn field(s: &[u8], at: usize, n: usize) -> u64
    requires { (1 ≤ n) × (at % 8 + n ≤ 64) × (at + n ≤ 8 * length s.now) }
    ensures { result ≡ bits at n s.now }
{
    let first = at / 8;
    let r = at % 8;
    if let Some(eight) = s[first..].first_chunk::<8>() {
        let x = u64::from_be_bytes(*eight);
        return (x << r) >> (64 - n);
    }
    let k = (r + n + 7) / 8;
    let x = number(s, first, k);
    let up = 64 - 8 * k + r;
    (x << up) >> (64 - n)
}

// Reads the fields of the record at the front of s into vs.
pub fn take_fields(s: &[u8], ws: &[u8], vs: &mut [u64])
    requires ws_value { sized ws.now ≡ true }
    requires ws_in_bounds { (size ws.now ≤ length s.now) × (length vs.old ≡ length ws.now) }
    ensures { vs.new ≡ fields ws.now s.now }
{
    // By index: at the end of a zip with iter_mut nothing is known of what was written.
    let mut at = 0;
    for (i, w) in ws.iter().enumerate() {
        let n = usize::from(*w);
        vs[i] = field(s, at, n);
        at += n;
    }
}

// Writes the n bytes of x into out from index at on.
pub fn put_number(out: &mut [u8], at: usize, n: usize, x: u64)
    requires { (n ≤ 8) × (at + n ≤ length out.old) }
    ensures { out.new ≡ over at (bytes_of n x) out.old }
{
    let bytes = x.to_be_bytes();
    out[at..at + n].copy_from_slice(&bytes[8 - n..]);
}

// Writes the record of the fields vs at the front of out. The have bits of acc wait for the rest of their byte.
pub fn put_fields(out: &mut [u8], ws: &[u8], vs: &[u64])
    requires ws_value { sized ws.now ≡ true }
    requires ws_in_bounds { (size ws.now ≤ length out.old) × Within ws.now vs.now }
    ensures { out.new ≡ packed ws.now vs.now ++ drop (size ws.now) out.old }
{
    let mut done = 0;
    let mut have = 0;
    let mut acc: u64 = 0;
    for (w, v) in ws.iter().zip(vs) {
        let x = acc.unbounded_shl(u32::from(*w)) + *v;
        let w = usize::from(*w);
        let n = (have + w) / 8;
        have = (have + w) % 8;
        put_number(out, done, n, x >> have);
        acc = x % (1 << have);
        done += n;
    }
}

// The index of the first value below its least or above its greatest, or the length.
// Kept beside `judged` of the crate judge, which goes over rows: its promise stands, and two edits show it.
pub fn first_outside(los: &[u64], his: &[u64], vs: &[u64]) -> usize
    requires { (length los.now ≡ length vs.now) × (length his.now ≡ length vs.now) }
    ensures { result ≡ first_outside los.now his.now vs.now }
{
    for (i, &v) in vs.iter().enumerate() {
        if v < los[i] || his[i] < v {
            return i;
        }
    }
    vs.len()
}

// Writes values among others, from index at on.
pub fn lay(values: &[u64], vs: &mut [u64], at: usize)
    requires { at + length values.now ≤ length vs.old }
    ensures { vs.new ≡ over at values.now vs.old }
{
    vs[at..at + values.len()].copy_from_slice(values);
}
