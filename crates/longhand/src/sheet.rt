// How the root of a number is worked by hand, written as lines of text into the bytes that the caller lends.
// The lines are in specs/Sheet.antt; the root itself and the step from line to line are the crate root's.
ghost use Rattle.std.specs.Prelude.{◌≡◌, ◌≤◌, ◌<◌, length};
ghost use Rattle.root.specs.Root.{pairs_of};
ghost use Rattle.longhand.specs.Sheet.{mark, columns, bits, blanks, short, first_line, row, term, last_line, sheet_of};
ghost use Rattle.text.specs.Text.{written};
ghost use Rattle.text.specs.Page.{HasRoom, put_on};
ghost use Rattle.longhand.specs.Inner.{moved_right};

use root::Line;
use text::Page;

// The last column of v: its last binary digit, or what stands for a leading zero.
fn column(lead: u8, v: u64) -> u8
    ensures { result ≡ mark lead v }
{
    if v == 0 { lead } else { b'0' + (v % 2) as u8 }
}

// The number v in w binary columns, the last of them first.
// By hand: of the bytes that a `for` over `iter_mut().rev()` writes the library says nothing, so no proof closes; forwards, they would be turned round after.
fn put_columns(page: &mut Page, lead: u8, w: usize, v: u64)
    requires { HasRoom w page.old }
    ensures { page.new ≡ put_on (columns lead w v) page.old }
{
    let end = page.at + w;
    let out = &mut page.out[page.at..end];
    let mut rest = v;
    for left in (0..w).rev() {
        out[left] = column(lead, rest);
        rest /= 2;
    }
    page.at = end;
}

// The number v in w binary digits.
fn put_bits(page: &mut Page, w: usize, v: u64)
    requires { HasRoom w page.old }
    ensures { page.new ≡ put_on (bits w v) page.old }
{
    put_columns(page, b'0', w, v);
}

// So many blanks.
fn put_blanks(page: &mut Page, w: usize)
    requires { HasRoom w page.old }
    ensures { page.new ≡ put_on (blanks w) page.old }
{
    put_columns(page, b' ', w, 0);
}

// The number v at the right of w columns, without leading zeros.
fn put_short(page: &mut Page, w: usize, v: u64)
    requires { (1 ≤ w) × HasRoom w page.old }
    ensures { page.new ≡ put_on (short w v) page.old }
{
    put_columns(page, b' ', w - 1, v / 2);
    put_columns(page, b'0', 1, v);
}

// How many pairs of bits q has, from the highest that is not zero.
fn pairs(q: u64) -> usize
    ensures { result ≡ pairs_of q }
{
    (32 - q.leading_zeros() / 2) as usize
}

// The first line: the number in binary, n pairs of bits.
fn put_first(page: &mut Page, n: usize, q: u64)
    requires { (n ≤ 32) × HasRoom 69 page.old }
    ensures { page.new ≡ put_on (first_line n q) page.old }
{
    put_blanks(page, 4);
    put_bits(page, 2 * n, q);
    page.byte(b'\n');
}

// Row i of n: the two bits brought down, what is left, and the root so far.
fn put_row(page: &mut Page, n: usize, i: usize, two: u64, line: Line)
    requires { (i ≤ n) × (n ≤ 32) × HasRoom 103 page.old }
    ensures { page.new ≡ put_on (row n i two line) page.old }
{
    put_bits(page, 2, two);
    put_short(page, 2 * i + 2, line.left);
    put_blanks(page, 2 * (n - i) + 2);
    put_bits(page, i, line.root);
    page.byte(b'\n');
}

// A blank, a sign, a blank and a number.
fn put_term(page: &mut Page, sign: u8, x: u64)
    requires { HasRoom 23 page.old }
    ensures { page.new ≡ put_on (term sign x) page.old }
{
    page.byte(b' ');
    page.byte(sign);
    page.byte(b' ');
    page.decimal(x);
}

// The sum that proves the root, in decimal.
fn put_last(page: &mut Page, line: Line, q: u64)
    requires { HasRoom 90 page.old }
    ensures { page.new ≡ put_on (last_line line q) page.old }
{
    page.decimal(line.root);
    put_term(page, b'x', line.root);
    put_term(page, b'+', line.left);
    put_term(page, b'=', q);
    page.byte(b'\n');
}

// A line that stands at a place, moved to the right.
fn moved(line: Line, place: u64) -> Line
    requires { 0 < place }
    ensures { result ≡ moved_right place line }
{
    Line {
        left: line.left / place,
        root: line.root / place,
    }
}

// The whole sheet of q.
fn put_sheet(page: &mut Page, q: u64)
    requires { HasRoom 4096 page.old }
    ensures { page.new ≡ put_on (sheet_of q) page.old }
{
    let n = pairs(q);
    let mut place = root::highest(q);
    let mut line = Line { left: q, root: 0 };
    put_first(page, n, q);
    for i in 0..n {
        line = root::step(place, line);
        put_row(page, n, i + 1, q / place % 4, moved(line, place));
        place /= 4;
    }
    put_last(page, line, q);
}

// Writes the sheet of q into 4096 bytes, which are enough for every sheet, and gives its length.
pub fn write(q: u64, out: &mut [u8; 4096]) -> usize
    ensures { (result, out.new) ≡ written 0 (sheet_of q) out.old }
{
    let mut page = Page { out, at: 0 };
    put_sheet(&mut page, q);
    page.at
}
