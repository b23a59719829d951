// Roads and the points where people live: which fields are allowed, what a road gives out, what of it reaches a point (VBUS sections 3.3 to 3.10).
// Each is a definition in specs/, with its laws in proofs/; the only code here is the types. Its values are given by emission, judge and reach.
#![tactic(auto)]

use answer::Refusal;
use course::{Course, Piece};

// Traffic of one period: M in thousandths of a vehicle per hour, p in tenths of a percent.
#[derive(Clone, Copy)]
pub struct Traffic {
    pub m: u32,
    pub p: u16,
}

// A road, the source's fields 2 to 19 of METHOD 4; those up to 4 are its course. Lengths are in cm. The gradient is the field's eight
// bits: 128 for a road that falls, and the tenths of a percent.
#[derive(Clone, Copy)]
pub struct Source {
    pub course: Course,
    pub lanes: u8,
    pub car: u8,
    pub truck: u8,
    pub surface: u8,
    pub gradient: u8,
    pub reflection: u8,
    pub walls: u8,
    pub height: u16,
    pub spacing: u16,
    pub traffic: [Traffic; 3],
}

// A point where people live, the receiver's fields 2 to 4.
#[derive(Clone, Copy)]
pub struct Receiver {
    pub x: u32,
    pub y: u32,
    pub height: u16,
}

// A level in hundredths of a dB as what it adds and what it takes off.
#[derive(Clone, Copy)]
pub struct Term {
    pub up: u32,
    pub down: u32,
}

// What speed gives, for every p: one car's level, and how much more energy a truck has than a car.
#[derive(Clone, Copy)]
pub struct Pace {
    pub car: u32,
    pub gain: u64,
}

// What a metre of road sends out in one period: its level, or none where there is no traffic.
pub type Voice = Option<Term>;

// What a road sends out: its voices by day, in the evening and at night, all of it as one piece, and what the length of that adds.
#[derive(Clone, Copy)]
pub struct Sent {
    pub voices: [Voice; 3],
    pub whole: Piece,
    pub length: Term,
}

// The energies of one road at one point, by day, in the evening and at night; by default those of no road.
#[derive(Clone, Copy, Default)]
pub struct Shares {
    pub day: u64,
    pub evening: u64,
    pub night: u64,
}

// Why a road and a point do not go together: by a place or a length, by loudness, or by more than one wall between them.
#[derive(Clone, Copy)]
pub enum Bar {
    Near,
    Far,
    Long,
    Loud,
    Walls,
}

// A share of one period: an energy, or the bar of loudness.
pub type Part = Result<u64, Bar>;

// What a road and a point make: three shares, or a bar.
pub type Pair = Result<Shares, Bar>;

// Whether fields are allowed.
pub type Verdict = Result<(), Refusal>;
