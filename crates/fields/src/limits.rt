// The limits of the fields, each named once, as in road/specs/Limits.antt. Lengths are in cm.
// The codes of surfaces and of reflections go as far as the tables of the crate emission.

// The largest number of 24 bits.
pub const COORDINATE: u64 = 16777215;

pub const LONGEST: u64 = 100000;

// 0: one lane a direction; 1: several.
pub const LAST_LANES: u64 = 1;

// Of cars and of trucks, as they are written.
pub const FASTEST: u64 = 250;

// In tenths of a percent.
pub const STEEPEST: u64 = 120;

// With the sign of a road that falls: there is no fall of nothing.
pub const FLATTEST_FALL: u64 = emission::SIGN as u64 + 1;

pub const STEEPEST_FALL: u64 = emission::SIGN as u64 + STEEPEST;

pub const LAST_SURFACE: u64 = emission::SURFACES as u64;

pub const LAST_REFLECTION: u64 = emission::REFLECTIONS as u64 - 1;

// 0: none; 1: reflecting; 2: absorbing; 3: highly absorbing.
pub const LAST_WALLS: u64 = 3;

pub const HIGHEST_WALL: u64 = 4000;

// The largest number of 14 bits.
pub const WIDEST_SPACING: u64 = 16383;

// M, in thousandths of a vehicle an hour.
pub const MOST_VEHICLES: u64 = 10000000;

// p, in tenths of a percent: all of them are trucks.
pub const ALL_TRUCKS: u64 = 1000;

pub const LOWEST_RECEIVER: u64 = 380;

pub const HIGHEST_RECEIVER: u64 = 420;

// Of noise walls, from 1 on.
pub const HIGHEST_NOISE_WALL: u64 = 2000;
