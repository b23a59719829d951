// What a record asks for (METHOD 3): the kinds of record, and what reading and writing one give, as definitions with their laws.
// The only code here is the types; the kinds are told apart by the crate kinds, and bytes are read and written by codec.
#![tactic(auto)]

use answer::Refusal;
use course::Piece;
use daily::Daily;
use road::{Receiver, Source};
use screen::Wall;

// How the traffic of a source is told: by counts for each period, which the source has, or by its daily figure, as it can be for a piece
// that is not cut.
#[derive(Clone, Copy)]
pub enum Counts {
    ByPeriod,
    ByDay(Piece, Daily),
}

// What a record asks for; the number is the slot. The road of PlaceSource stands beside the call, since it holds an array.
#[derive(Clone, Copy)]
pub enum Request {
    PlaceReceiver(u16, Receiver),
    WithdrawReceiver(u16),
    PlaceSource(u16, Counts),
    WithdrawSource(u16),
    Ask(u16),
    PlaceWall(u16, Wall),
    WithdrawWall(u16),
}

// What a reading tells: a call, or why there is none.
pub type Told = Result<Request, Refusal>;

// A reading. The source is the road of PlaceSource, by its daily figure the one that it stands for; all zero otherwise.
// It stands beside the call, and not in it: so do the theorems on round trips (record/specs/Trips.antt) speak of the two.
#[derive(Clone, Copy)]
pub struct Reading {
    pub told: Told,
    pub source: Source,
}

// What comes of writing.
pub type Written = Result<(), Refusal>;

// The sizes of a kind's layout.
#[derive(Clone, Copy)]
pub struct Shape {
    pub count: usize,
    pub fields: usize,
    pub bytes: usize,
}
