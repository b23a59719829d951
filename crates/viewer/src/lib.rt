// The book for programs in C: clear, apply a record and ask, over a store that the caller keeps. include/ngoretaiwhe.h declares them, and
// the crate viewer_c exports them.
// What each returns and leaves is a definition of specs/Viewer.antt, for any bytes lent; no call requires anything.
#![tactic(auto)]

ghost use Rattle.std.specs.Prelude.{◌≡◌, min, Ok};
ghost use Rattle.std.proofs.Math.Option.{none, some};
ghost use Rattle.service.specs.Service.{outcome_refusal, done_to};
ghost use Rattle.calls.specs.declared.Reply.TheVariants.{Levels};
ghost use Rattle.calls.specs.Calls.{refusal_in};
ghost use Rattle.viewer.specs.Viewer.{result_of, lastly, cleared, applied, asked, word, tell_in};

use answer::Refusal;
use book::{Answer, Reply};
use clerk::Outcome;
use index::Index;

// What quiet is as a number, and how many bytes an output has.
// C's own: the head of a test's answer (the crate probe) says quiet by the same number, but the two are not to change together.
const QUIET: u32 = 65535;

const OUTPUT: usize = 4;

// A refusal as a result: its number times 1024, and its place.
fn refused(why: Refusal) -> u32
    ensures { result ≡ result_of (some why) }
{
    let number = u32::from(answer::number(why));
    let place = u32::from(answer::place(why));
    number * 1024 + place
}

// The result where nothing else is refused: 2 if a length is wrong.
// A number, here and below, and no Result: it is what C is given.
fn at_last(wrong: bool) -> u32
    ensures { result ≡ result_of (lastly wrong none) }
{
    if wrong {
        return refused(Refusal::CutShort);
    }
    0
}

// The result of clearing.
fn of_answer(answer: Answer) -> u32
    ensures { result ≡ result_of (refusal_in answer) }
{
    match answer {
        Ok(_) => 0,
        Err(why) => refused(why),
    }
}

// The result of a record, and whether bytes follow it.
fn of_outcome(outcome: Outcome, more: bool) -> u32
    ensures { result ≡ result_of (lastly more (outcome_refusal outcome)) }
{
    match outcome {
        Ok(_) => at_last(more),
        Err(why) => refused(why),
    }
}

// Makes a store of the right length a book with nothing in it.
pub fn ngoretaiwhe_clear(store: &mut [u8]) -> u32
    ensures { (result, store.new) ≡ cleared store.old }
{
    let answer = book::clear(store);
    of_answer(answer)
}

// What would come of a record: it is done to a copy of the store.
// Apart from its caller, so that a record which is done has no stack for the copy.
#[inline(never)]
fn trial(store: &[u8], record: &[u8]) -> Outcome
    ensures { result ≡ (done_to «record».now store.now).0.outcome }
{
    if store.len() != store::LENGTH {
        return Err(Refusal::Damaged);
    }
    let mut copy = [0u8; store::LENGTH];
    copy.copy_from_slice(store);
    let deed = clerk::apply(&mut copy, record);
    deed.outcome
}

// Does one record to a store. One that bytes follow is only tried, so that nothing is written.
pub fn ngoretaiwhe_apply(store: &mut [u8], record: &[u8]) -> u32
    ensures { (result, store.new) ≡ applied «record».now store.old }
{
    let follows = codec::extent(record) < record.len();
    if follows {
        let outcome = trial(store, record);
        return of_outcome(outcome, true);
    }
    let deed = clerk::apply(store, record);
    let outcome = deed.outcome;
    of_outcome(outcome, false)
}

// The slot as the book takes it; a number that is too large for that is no slot either way.
fn slot_of(number: usize) -> u16
    ensures { result ≡ min number 65535 }
{
    u16::try_from(number).unwrap_or(u16::MAX)
}

// An index as a number.
fn word_of(level: Index) -> u32
    ensures { result ≡ word level }
{
    level.unwrap_or(QUIET)
}

// Writes two indices into an output of four bytes.
fn write_indices(out: &mut [u8], den: Index, night: Index) -> u32
    ensures { (result, out.new) ≡ tell_in out.old (Ok (Levels den night)) }
{
    if out.len() != OUTPUT {
        return at_last(true);
    }
    let [low_den, high_den, ..] = word_of(den).to_le_bytes();
    let [low_night, high_night, ..] = word_of(night).to_le_bytes();
    out.copy_from_slice(&[low_den, high_den, low_night, high_night]);
    at_last(false)
}

// Asks a receiver for its two indices.
pub fn ngoretaiwhe_ask(store: &[u8], slot: usize, out: &mut [u8]) -> u32
    ensures { (result, out.new) ≡ asked slot store.now out.old }
{
    match book::ask(store, slot_of(slot)) {
        Ok(Reply::Levels(den, night)) => write_indices(out, den, night),
        Ok(Reply::Done) => 0,
        Err(why) => refused(why),
    }
}
