// The lines of the listing (METHOD 10): an ask's two levels, a refusal's number, and the last line with the count.
// A line is written at the front of the bytes that the caller lends; with less room than every line has nothing is written.
#![tactic(auto)]

ghost use Rattle.std.specs.Prelude.{◌≡◌, ◌∷◌, ◌++◌, ◌+◌, ◌≤◌, length, Some};
ghost use Rattle.listing.specs.Listing.{two_digits, level_text, ask_line, refusal_line, end_line, line_of, put};
ghost use Rattle.text.specs.Page.{HasRoom, put_on};

use answer::Refusal;
use index::Index;
use service::{Outcome, Report};
use text::Page;

// The room that every line has.
pub const LINE_ROOM: usize = 64;

// Writes a mark and two digits, as R05 or E09 after a space.
fn put_mark(page: &mut Page, mark: &[u8], x: u64)
    requires { HasRoom (length mark.now + 2) page.old }
    ensures { page.new ≡ put_on (mark.now ++ two_digits x) page.old }
{
    page.text(mark);
    page.digits(2, x);
}

// Writes a space and a level: the whole part, a point and one digit.
fn put_tenths(page: &mut Page, tenths: u32)
    requires { HasRoom 21 page.old }
    ensures page_after { page.new ≡ put_on (32 ∷ level_text (Some tenths)) page.old }
    ensures upper_bound { page.new.at ≤ page.old.at + 12 }
{
    let t = u64::from(tenths);
    page.text(b" ");
    page.decimal(t / 10);
    page.text(b".");
    page.digits(1, t);
}

// Writes a space and an index.
fn put_level(page: &mut Page, index: Index)
    requires { HasRoom 21 page.old }
    ensures page_after { page.new ≡ put_on (32 ∷ level_text index) page.old }
    ensures upper_bound { page.new.at ≤ page.old.at + 12 }
{
    match index {
        None => page.text(b" --.-"),
        Some(tenths) => put_tenths(page, tenths),
    }
}

// The line of record n that asks: the receiver's slot, L_DEN and L_Night. Gives the bytes written.
// With no room it is 0, here and below, and no option: so many bytes are written (`put` of specs/Listing.antt).
pub fn ask_line(n: u64, slot: u16, den: Index, night: Index, out: &mut [u8]) -> usize
    ensures { (result, out.new) ≡ put (ask_line n slot den night) out.old }
{
    if out.len() < LINE_ROOM {
        return 0;
    }
    let mut page = Page { out, at: 0 };
    page.decimal(n);
    put_mark(&mut page, b" R", u64::from(slot));
    put_level(&mut page, den);
    put_level(&mut page, night);
    page.text(b"\n");
    page.at
}

// The line of record n that is refused. Gives the bytes written.
pub fn refusal_line(n: u64, why: Refusal, out: &mut [u8]) -> usize
    ensures { (result, out.new) ≡ put (refusal_line n why) out.old }
{
    if out.len() < LINE_ROOM {
        return 0;
    }
    let mut page = Page { out, at: 0 };
    page.decimal(n);
    put_mark(&mut page, b" E", u64::from(answer::number(why)));
    page.text(b"\n");
    page.at
}

// The last line, after n records were tried. Gives the bytes written.
pub fn end_line(n: u64, out: &mut [u8]) -> usize
    ensures { (result, out.new) ≡ put (end_line n) out.old }
{
    if out.len() < LINE_ROOM {
        return 0;
    }
    let mut page = Page { out, at: 0 };
    page.text(b"END ");
    page.decimal(n);
    page.text(b"\n");
    page.at
}

// The line of record n by its outcome; none where it is done. Gives the bytes written.
pub fn line(n: u64, outcome: Outcome, out: &mut [u8]) -> usize
    ensures { (result, out.new) ≡ put (line_of n outcome) out.old }
{
    match outcome {
        Ok(Report::Done) => 0,
        Ok(Report::Levels(slot, den, night)) => ask_line(n, slot, den, night, out),
        Err(why) => refusal_line(n, why, out),
    }
}
