// The fields of a source, of a receiver and of a noise wall, a row for each, as in road/specs/Fields.antt: what records, slots and verdicts are made from.
// Values are numbers of 64 bits in the order of the rows.
#![tactic(auto)]

pub mod limits;

ghost use Rattle.std.specs.Prelude.{◌≡◌, ◌+◌, ◌^◌, ◌≤◌, ◌<◌, length, get_or, drop};
ghost use Rattle.screen.specs.Screen.{wall_of};
ghost use Rattle.road.specs.Fields.{piece_table, ends_table, road_table, source_table, receiver_table, wall_table, traffic_of, piece_of, ends_of, source_of, road_of, receiver_of, values_by, slot_bits_by, Fit};
ghost use Rattle.fields.specs.Rows.{rows_of};

use course::{Course, Ends, Piece};
use road::{Receiver, Source, Traffic};
use screen::Wall;

// How many fields the course of a source has, as a piece or as two ends.
pub const PIECE_ROWS: usize = 3;

pub const ENDS_ROWS: usize = 4;

// How many it has after them, those of the road first and then those of its traffic; and a receiver beside the slot.
pub const ROAD_ROWS: usize = 9;

pub const SOURCE_ROWS: usize = ROAD_ROWS + 6;

pub const RECEIVER_ROWS: usize = 3;

// And a wall.
pub const WALL_ROWS: usize = 5;

// What is said of a field: its number, its bits in a record, its bytes in a slot, the least and the most that it may be.
#[derive(Clone, Copy)]
pub struct Row {
    pub number: u16,
    pub bits: u8,
    pub bytes: u8,
    pub least: u64,
    pub most: u64,
}

// A row in that order, so that a table has a line for each.
macro_rules! row {
    ($number:expr, $bits:expr, $bytes:expr, $least:expr, $most:expr) => {
        Row {
            number: $number,
            bits: $bits,
            bytes: $bytes,
            least: $least,
            most: $most,
        }
    };
}

// The rows of a piece.
pub const PIECE: [Row; PIECE_ROWS] = [
    // x, y, length
    row!(2, 24, 3, 0, limits::COORDINATE),
    row!(3, 24, 3, 0, limits::COORDINATE),
    row!(4, 17, 3, 1, limits::LONGEST),
];

// The rows of two ends.
pub const ENDS: [Row; ENDS_ROWS] = [
    // x, y of the first, x, y of the second
    row!(2, 24, 3, 0, limits::COORDINATE),
    row!(3, 24, 3, 0, limits::COORDINATE),
    row!(2, 24, 3, 0, limits::COORDINATE),
    row!(3, 24, 3, 0, limits::COORDINATE),
];

// The rows of a source after its course. The limits of the gradient are for a road that rises, those of height and spacing for walls
// that are there.
pub const SOURCE: [Row; SOURCE_ROWS] = [
    // lanes, cars, trucks, surface, gradient, reflection
    row!(5, 1, 1, 0, limits::LAST_LANES),
    row!(6, 8, 1, 1, limits::FASTEST),
    row!(7, 8, 1, 1, limits::FASTEST),
    row!(8, 4, 1, 1, limits::LAST_SURFACE),
    row!(9, 8, 1, 0, limits::STEEPEST),
    row!(10, 3, 1, 0, limits::LAST_REFLECTION),
    // walls, their height, their spacing
    row!(11, 2, 1, 0, limits::LAST_WALLS),
    row!(12, 12, 2, 1, limits::HIGHEST_WALL),
    row!(13, 14, 2, 1, limits::WIDEST_SPACING),
    // M and p by day, in the evening, at night
    row!(14, 24, 3, 0, limits::MOST_VEHICLES),
    row!(15, 10, 2, 0, limits::ALL_TRUCKS),
    row!(16, 24, 3, 0, limits::MOST_VEHICLES),
    row!(17, 10, 2, 0, limits::ALL_TRUCKS),
    row!(18, 24, 3, 0, limits::MOST_VEHICLES),
    row!(19, 10, 2, 0, limits::ALL_TRUCKS),
];

// The rows of a receiver.
pub const RECEIVER: [Row; RECEIVER_ROWS] = [
    // x, y, height
    row!(2, 24, 3, 0, limits::COORDINATE),
    row!(3, 24, 3, 0, limits::COORDINATE),
    row!(4, 9, 2, limits::LOWEST_RECEIVER, limits::HIGHEST_RECEIVER),
];

// The rows of a wall. The limits of the second x are for ends that are not one point.
pub const WALL: [Row; WALL_ROWS] = [
    // x, y of the first end, x, y of the second, height
    row!(2, 24, 3, 0, limits::COORDINATE),
    row!(3, 24, 3, 0, limits::COORDINATE),
    row!(4, 24, 3, 0, limits::COORDINATE),
    row!(5, 24, 3, 0, limits::COORDINATE),
    row!(6, 11, 2, 1, limits::HIGHEST_NOISE_WALL),
];

// The rows whose limits depend on a field before them.
const SECOND_X: usize = 2;

const GRADIENT: usize = 4;

const HEIGHT: usize = 7;

const SPACING: usize = 8;

// The rows of a source, with the limits that hold for it.
pub fn source_rows(s: Source) -> [Row; SOURCE_ROWS]
    ensures { result ≡ rows_of source_table s }
{
    let mut rows = SOURCE;
    let falls = emission::SIGN <= s.gradient;
    if falls {
        rows[GRADIENT].least = limits::FLATTEST_FALL;
        rows[GRADIENT].most = limits::STEEPEST_FALL;
    }
    let open = s.walls == 0;
    if open {
        rows[HEIGHT].least = 0;
        rows[HEIGHT].most = 0;
        rows[SPACING].least = 0;
        rows[SPACING].most = 0;
    }
    rows
}

// The rows of a wall, with the limits that hold for it.
pub fn wall_rows(w: Wall) -> [Row; WALL_ROWS]
    ensures { result ≡ rows_of wall_table w }
{
    let mut rows = WALL;
    let e = w.ends;
    let point = e.x1 == e.x2 && e.y1 == e.y2;
    if point {
        rows[SECOND_X].least = limits::COORDINATE + 1;
    }
    rows
}

// The values of a piece.
pub fn piece_values(p: Piece) -> [u64; PIECE_ROWS]
    ensures { result ≡ values_by piece_table p }
{
    [u64::from(p.x), u64::from(p.y), u64::from(p.length)]
}

// The values of two ends.
pub fn ends_values(e: Ends) -> [u64; ENDS_ROWS]
    ensures { result ≡ values_by ends_table e }
{
    [
        u64::from(e.x1),
        u64::from(e.y1),
        u64::from(e.x2),
        u64::from(e.y2),
    ]
}

// The values of a source after its course.
pub fn source_values(s: Source) -> [u64; SOURCE_ROWS]
    ensures { result ≡ values_by source_table s }
{
    let [day, evening, night] = s.traffic;
    [
        u64::from(s.lanes),
        u64::from(s.car),
        u64::from(s.truck),
        u64::from(s.surface),
        u64::from(s.gradient),
        u64::from(s.reflection),
        u64::from(s.walls),
        u64::from(s.height),
        u64::from(s.spacing),
        u64::from(day.m),
        u64::from(day.p),
        u64::from(evening.m),
        u64::from(evening.p),
        u64::from(night.m),
        u64::from(night.p),
    ]
}

// The values of a receiver.
pub fn receiver_values(r: Receiver) -> [u64; RECEIVER_ROWS]
    ensures { result ≡ values_by receiver_table r }
{
    [u64::from(r.x), u64::from(r.y), u64::from(r.height)]
}

// The values of a wall.
pub fn wall_values(w: Wall) -> [u64; WALL_ROWS]
    ensures { result ≡ values_by wall_table w }
{
    let e = w.ends;
    [
        u64::from(e.x1),
        u64::from(e.y1),
        u64::from(e.x2),
        u64::from(e.y2),
        u64::from(w.height),
    ]
}

// The piece of the values from index at on.
pub fn piece_of(v: &[u64], at: usize) -> Piece
    requires { (at + length piece_table ≤ length v.now) × Fit (slot_bits_by piece_table) at v.now }
    ensures { result ≡ piece_of (drop at v.now) }
{
    let v = &v[at..];
    Piece {
        x: v[0] as u32,
        y: v[1] as u32,
        length: v[2] as u32,
    }
}

// The two ends of the values from index at on.
pub fn ends_of(v: &[u64], at: usize) -> Ends
    requires { (at + length ends_table ≤ length v.now) × Fit (slot_bits_by ends_table) at v.now }
    ensures { result ≡ ends_of (drop at v.now) }
{
    let v = &v[at..];
    Ends {
        x1: v[0] as u32,
        y1: v[1] as u32,
        x2: v[2] as u32,
        y2: v[3] as u32,
    }
}

// The road on a course with the values at the front of v, without traffic.
pub fn road_of(course: Course, v: &[u64]) -> Source
    requires { (length road_table ≤ length v.now) × Fit (slot_bits_by road_table) 0 v.now }
    ensures { result ≡ road_of course v.now }
{
    let traffic = [Traffic { m: 0, p: 0 }; 3];
    Source {
        course,
        lanes: v[0] as u8,
        car: v[1] as u8,
        truck: v[2] as u8,
        surface: v[3] as u8,
        gradient: v[4] as u8,
        reflection: v[5] as u8,
        walls: v[6] as u8,
        height: v[7] as u16,
        spacing: v[8] as u16,
        traffic,
    }
}

// The traffic of one period, its M at index at and its p after it.
fn traffic_of(v: &[u64], at: usize) -> Traffic
    requires { (at + 2 ≤ length v.now) × (get_or v.now at 0 < 2 ^ 32) × (get_or v.now (at + 1) 0 < 2 ^ 16) }
    ensures { result ≡ traffic_of (get_or v.now at 0) (get_or v.now (at + 1) 0) }
{
    let m = v[at] as u32;
    let p = v[at + 1] as u16;
    Traffic { m, p }
}

// The source on a course with the values from index at on.
pub fn source_of(course: Course, v: &[u64], at: usize) -> Source
    requires { (at + length source_table ≤ length v.now) × Fit (slot_bits_by source_table) at v.now }
    ensures { result ≡ source_of course (drop at v.now) }
{
    let v = &v[at..];
    let day = traffic_of(v, ROAD_ROWS);
    let evening = traffic_of(v, ROAD_ROWS + 2);
    let night = traffic_of(v, ROAD_ROWS + 4);
    let traffic = [day, evening, night];
    Source {
        traffic,
        ..road_of(course, v)
    }
}

// The receiver of the values from index at on.
pub fn receiver_of(v: &[u64], at: usize) -> Receiver
    requires { (at + length receiver_table ≤ length v.now) × Fit (slot_bits_by receiver_table) at v.now }
    ensures { result ≡ receiver_of (drop at v.now) }
{
    let v = &v[at..];
    Receiver {
        x: v[0] as u32,
        y: v[1] as u32,
        height: v[2] as u16,
    }
}

// The wall of the values from index at on.
pub fn wall_of(v: &[u64], at: usize) -> Wall
    requires { (at + length wall_table ≤ length v.now) × Fit (slot_bits_by wall_table) at v.now }
    ensures { result ≡ wall_of (drop at v.now) }
{
    let v = &v[at..];
    let ends = Ends {
        x1: v[0] as u32,
        y1: v[1] as u32,
        x2: v[2] as u32,
        y2: v[3] as u32,
    };
    let height = v[4] as u16;
    Wall { ends, height }
}
