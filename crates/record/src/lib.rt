// Job records for any caller (METHOD 3): no call here requires anything.
// What a record is, and how it is read and written, is in `codec`; here is the part of a job that a record is.
#![tactic(auto)]

ghost use Rattle.std.specs.Prelude.{◌≡◌};
ghost use Rattle.request.specs.Record.{part_of};

pub use codec::{extent, read, write};
pub use request::{Counts, Reading, Request, Told, Written};

// The record at the front of a job as a part of it; nothing where it is refused.
pub fn part(job: &[u8]) -> &[u8]
    ensures { result.now ≡ part_of job.now }
{
    match read(job).told {
        Ok(_) => &job[..extent(job)],
        Err(_) => &[],
    }
}
