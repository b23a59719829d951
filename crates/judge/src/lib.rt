// Which fields are allowed: refusals 5, 6 and 7 of METHOD 9, by the limits of the rows of the crate fields.
// The slot is field 1 and is judged first.
#![tactic(auto)]

ghost use Rattle.std.specs.Prelude.{◌≡◌, Ok};
ghost use Rattle.road.specs.Fields.{piece_table, ends_table, length_table, road_table};
ghost use Rattle.road.specs.Judge.{unless_outside, course_verdict, rest_verdict, source_verdict, receiver_verdict, wall_verdict, slot_verdict, slow_surface, quiet_truck};
ghost use Rattle.course.specs.Course.{Mapped};
ghost use Rattle.judge.specs.Rows.{judged};

use answer::Refusal;
use course::{Course, Ends, Piece};
use fields::{Row, limits};
use road::{Receiver, Source, Verdict};
use screen::Wall;

// The length of two ends, which is held nowhere, as that of a piece.
const LENGTH: Row = Row {
    number: 4,
    bits: 0,
    bytes: 0,
    least: 1,
    most: limits::LONGEST,
};

// Whether the trucks are quieter than the cars.
fn quiet_truck(s: Source) -> bool
    ensures { result ≡ quiet_truck s }
{
    let car = emission::car_level(emission::car_speed(s.car));
    let truck = emission::truck_level(emission::truck_speed(s.truck));
    truck < car
}

// Whether the surface is one for more than 60 km/h, and the cars are slower.
fn slow_surface(s: Source) -> bool
    ensures { result ≡ slow_surface s }
{
    let speed = emission::car_speed(s.car);
    5 <= s.surface && speed <= 60
}

// Whether each value is within the limits of its row: the first that is not is refused by the row's number.
pub fn judged(rows: &[Row], values: &[u64]) -> Verdict
    ensures { result ≡ judged rows.now values.now }
{
    for (row, v) in rows.iter().zip(values) {
        if *v < row.least || row.most < *v {
            return Err(Refusal::Field(row.number));
        }
    }
    Ok(())
}

// Whether a piece is allowed.
pub fn judge_piece(p: Piece) -> Verdict
    ensures { result ≡ unless_outside piece_table p (Ok tt) }
{
    judged(&fields::PIECE, &fields::piece_values(p))
}

// Whether the length of two ends is allowed.
fn judge_length(e: Ends) -> Verdict
    requires { Mapped e }
    ensures { result ≡ unless_outside length_table e (Ok tt) }
{
    judged(&[LENGTH], &[u64::from(course::length(e))])
}

// Whether two ends are allowed, and then their length.
fn judge_ends(e: Ends) -> Verdict
    ensures { result ≡ unless_outside ends_table e (unless_outside length_table e (Ok tt)) }
{
    judged(&fields::ENDS, &fields::ends_values(e))?;
    judge_length(e)
}

// Whether a course is allowed.
pub fn judge_course(course: Course) -> Verdict
    ensures { result ≡ course_verdict course (Ok tt) }
{
    match course {
        Course::Uncut(p) => judge_piece(p),
        Course::Between(e) => judge_ends(e),
    }
}

// Whether the fields of a source after its course are allowed.
pub fn judge_rest(s: Source) -> Verdict
    ensures { result ≡ rest_verdict s }
{
    judged(&fields::source_rows(s), &fields::source_values(s))?;
    if slow_surface(s) {
        return Err(Refusal::SlowSurface);
    }
    if quiet_truck(s) {
        return Err(Refusal::QuietTruck);
    }
    Ok(())
}

// Whether the fields of a source are allowed.
pub fn judge_source(s: Source) -> Verdict
    ensures { result ≡ source_verdict s }
{
    judge_course(s.course)?;
    judge_rest(s)
}

// Whether the fields of a road, without its course and its traffic, are allowed.
pub fn judge_road(s: Source) -> Verdict
    ensures { result ≡ unless_outside road_table s (Ok tt) }
{
    let n = fields::ROAD_ROWS;
    judged(&fields::source_rows(s)[..n], &fields::source_values(s)[..n])
}

// Whether the fields of a receiver are allowed.
pub fn judge_receiver(r: Receiver) -> Verdict
    ensures { result ≡ receiver_verdict r }
{
    judged(&fields::RECEIVER, &fields::receiver_values(r))
}

// Whether the fields of a wall are allowed.
pub fn judge_wall(w: Wall) -> Verdict
    ensures { result ≡ wall_verdict w }
{
    judged(&fields::wall_rows(w), &fields::wall_values(w))
}

// Whether a slot, up to the last one, is allowed.
pub fn judge_slot(last: u16, slot: u16) -> Verdict
    ensures { result ≡ slot_verdict last slot (Ok tt) }
{
    if slot <= last {
        Ok(())
    } else {
        Err(Refusal::Field(1))
    }
}
