// What each call of the book answers and leaves, as definitions on the book, with their laws: the order of refusals, and that a store stays whole.
// The only code here is the answer; the calls on bytes are in the crate undamaged, and in book, which looks for damage first.
#![tactic(auto)]

use answer::Refusal;
use index::Index;

// What a call that is not refused answers: done, or the two indices of a receiver (L_DEN, then L_Night).
#[derive(Clone, Copy)]
pub enum Reply {
    Done,
    Levels(Index, Index),
}

// What a call answers.
pub type Answer = Result<Reply, Refusal>;
