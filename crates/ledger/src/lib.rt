// The ledger of a book: what a source that goes and one that comes make of every account, and what all sources bring to one.
// The store is undamaged and the fields are allowed; what each function gives is a definition of specs/Ledger.antt.
#![tactic(auto)]

pub mod fences;
pub mod gather;
pub mod round;

use road::Bar;
use store::Held;

// A receiver's slot as it would be.
pub type Seat = Option<Held>;

// Whether a receiver is blocked: by the first source that is barred there.
pub type Block = Option<Bar>;

// A receiver with the sums of the sources that were heard so far.
#[derive(Clone, Copy)]
pub struct Tally {
    pub seat: Seat,
    pub block: Block,
}
