// One record at the front of a job, read and done to a store that is known to be undamaged.
// What comes of it is a definition of specs/Service.antt, and the store stays undamaged.
#![tactic(auto)]

ghost use Rattle.std.specs.Prelude.{◌≡◌, false};
ghost use Rattle.store.specs.Store.{damaged};
ghost use Rattle.history.specs.History.{perform};
ghost use Rattle.service.specs.Service.{call_of, slot_in, outcome_of, done_to};

use answer::Refusal;
use calls::{Answer, Reply};
use index::Index;
use request::Request;
use road::Source;

// What comes of a record that is not refused: done, or the two indices of the receiver in a slot (L_DEN, then L_Night).
// Beside the book's `Reply`, which has no slot: a line of the listing names it (`line_of` of listing/specs/Listing.antt).
#[derive(Clone, Copy)]
pub enum Report {
    Done,
    Levels(u16, Index, Index),
}

// What comes of a record.
pub type Outcome = Result<Report, Refusal>;

// The outcome, and how many bytes on the next record begins; 0 where the job cannot go on.
// A number and no option: `stops` of specs/Service.antt says of it when it is 0.
#[derive(Clone, Copy)]
pub struct Deed {
    pub outcome: Outcome,
    pub extent: usize,
}

// The slot of a call. By hand: each case of a request has its slot beside what it asks for.
fn slot(call: Request) -> u16
    ensures { result ≡ slot_in call }
{
    match call {
        Request::PlaceReceiver(slot, _)
        | Request::WithdrawReceiver(slot)
        | Request::PlaceSource(slot, _)
        | Request::WithdrawSource(slot)
        | Request::Ask(slot)
        | Request::PlaceWall(slot, _)
        | Request::WithdrawWall(slot) => slot,
    }
}

// An answer of the book with the slot that was asked.
fn of_slot(slot: u16, answer: Answer) -> Outcome
    ensures { result ≡ outcome_of slot answer }
{
    match answer? {
        Reply::Done => Ok(Report::Done),
        Reply::Levels(den, night) => Ok(Report::Levels(slot, den, night)),
    }
}

// A call done to a store.
fn perform(store: &mut [u8], call: Request, source: Source) -> Answer
    requires { damaged store.old ≡ false }
    ensures { (result, store.new) ≡ perform (call_of call source) store.old }
{
    match call {
        Request::PlaceReceiver(slot, r) => undamaged::place_receiver(store, slot, r),
        Request::WithdrawReceiver(slot) => undamaged::withdraw_receiver(store, slot),
        Request::PlaceSource(slot, _) => undamaged::place_source(store, slot, source),
        Request::WithdrawSource(slot) => undamaged::withdraw_source(store, slot),
        Request::Ask(slot) => undamaged::ask(store, slot),
        Request::PlaceWall(slot, w) => undamaged::place_wall(store, slot, w),
        Request::WithdrawWall(slot) => undamaged::withdraw_wall(store, slot),
    }
}

// Does the record at the front of a job to an undamaged store, which stays undamaged.
pub fn serve(store: &mut [u8], job: &[u8]) -> Deed
    requires { damaged store.old ≡ false }
    ensures { ((result, store.new) ≡ done_to job.now store.old) × (damaged store.new ≡ false) }
{
    let extent = codec::extent(job);
    let reading = codec::read(job);
    match reading.told {
        Err(why) => Deed {
            outcome: Err(why),
            extent,
        },
        Ok(call) => {
            let answer = perform(store, call, reading.source);
            Deed {
                outcome: of_slot(slot(call), answer),
                extent,
            }
        }
    }
}
