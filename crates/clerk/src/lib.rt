// The clerk: one record at the front of a job, read and done to a store. It takes any bytes and any store, and requires nothing.
// What comes of a record is a definition of service/specs/Service.antt.
#![tactic(auto)]

ghost use Rattle.std.specs.Prelude.{◌≡◌};
ghost use Rattle.service.specs.Service.{done_to};

use answer::Refusal;
pub use service::{Deed, Outcome, Report};

// Does the record at the front of a job to a store.
pub fn apply(store: &mut [u8], job: &[u8]) -> Deed
    ensures { (result, store.new) ≡ done_to job.now store.old }
{
    if store::damaged(store) {
        let extent = codec::extent(job);
        return Deed {
            outcome: Err(Refusal::Damaged),
            extent,
        };
    }
    service::serve(store, job)
}
