// Traffic by the daily figure: the counts that a class of road and its vehicles a day stand for (VBUS table 2), and which are allowed.
// The table and the fields are those of specs/Daily.antt.
#![tactic(auto)]

ghost use Rattle.std.specs.Prelude.{◌≡◌, [], ◌++◌, ◌*◌, ◌^◌, ◌≤◌, ◌<◌, length, get_or, drop};
ghost use Rattle.layout.specs.Layout.{Within};
ghost use Rattle.road.specs.Fields.{traffic_table, values_by, source_of, traffic_of};
ghost use Rattle.road.specs.Judge.{unless_outside, rest_verdict};
ghost use Rattle.daily.specs.Daily as spec;

use course::Course;
use fields::Row;
use road::{Source, Traffic, Verdict};

// A class of road, the row of table 2 from 0 on, and how many vehicles the road has a day (DTV).
#[derive(Clone, Copy)]
pub struct Daily {
    pub class: u8,
    pub dtv: u32,
}

// How many fields these are. They follow those of the road.
pub const DAILY_ROWS: usize = 2;

// The class and the vehicles a day, as rows like those of the crate fields.
pub const DAILY: [Row; DAILY_ROWS] = [
    Row {
        number: 14,
        bits: 2,
        bytes: 1,
        least: 0,
        most: CLASSES as u64 - 1,
    },
    Row {
        number: 15,
        bits: 18,
        bytes: 3,
        least: 1,
        most: 160000,
    },
];

// Table 2: by day, in the evening and at night M in thousandths of the vehicles a day, and p in tenths of a percent.
const CLASSES: usize = 4;

static TABLE_2: [[u32; 6]; CLASSES] = [
    // federal motorways
    [62, 250, 42, 350, 14, 450],
    // federal roads
    [62, 200, 42, 200, 11, 200],
    // state and district roads, and roads between municipalities
    [62, 200, 42, 150, 8, 100],
    // municipal streets
    [62, 100, 42, 65, 11, 30],
];

// The row of a class.
fn row_of(class: u8) -> [u32; 6]
    requires { class ≤ spec.last_class }
    ensures { result ≡ get_or spec.table_two class [] }
{
    TABLE_2[usize::from(class)]
}

// The traffic of a period, from the vehicles a day and two numbers of table 2.
fn period(dtv: u32, m: u32, p: u32) -> Traffic
    requires { (dtv < 2 ^ 18) × (m ≤ 62) × (p ≤ 1000) }
    ensures { result ≡ traffic_of (dtv * m) p }
{
    Traffic {
        m: dtv * m,
        p: p as u16,
    }
}

// The source on a course that a road with its daily figure stands for. What course and traffic s has is not looked at.
pub fn counted(course: Course, d: Daily, s: Source) -> Source
    requires { (d.class ≤ spec.last_class) × (d.dtv < 2 ^ 18) }
    ensures { result ≡ spec.counted course d s }
{
    let row = row_of(d.class);
    let day = period(d.dtv, row[0], row[1]);
    let evening = period(d.dtv, row[2], row[3]);
    let night = period(d.dtv, row[4], row[5]);
    let traffic = [day, evening, night];
    Source {
        course,
        traffic,
        ..s
    }
}

// Class and vehicles a day, from the values of a road and of these.
pub fn daily_of(v: &[u64]) -> Daily
    requires { Within spec.daily_bits v.now }
    ensures { result ≡ spec.daily_of v.now }
{
    let class = v[fields::ROAD_ROWS] as u8;
    let dtv = v[fields::ROAD_ROWS + 1] as u32;
    Daily { class, dtv }
}

// The source on a course that they stand for, from the same values.
pub fn source_of(course: Course, v: &[u64]) -> Source
    requires { Within spec.daily_bits v.now }
    ensures { result ≡ spec.counted course (spec.daily_of v.now) (source_of course v.now) }
{
    counted(course, daily_of(v), fields::road_of(course, v))
}

// The values of a road and of these. What follows them says nothing.
pub fn values(d: Daily, s: Source) -> [u64; fields::SOURCE_ROWS]
    ensures { result ≡ spec.daily_fields d s ++ drop (length spec.daily_table) (values_by traffic_table s) }
{
    let mut values = fields::source_values(s);
    values[fields::ROAD_ROWS] = u64::from(d.class);
    values[fields::ROAD_ROWS + 1] = u64::from(d.dtv);
    values
}

// Whether class and vehicles a day, and then the source that they stand for, but for its course, are allowed.
fn judge_daily(course: Course, d: Daily, s: Source) -> Verdict
    ensures { result ≡ unless_outside spec.daily_table d (rest_verdict (spec.counted course d s)) }
{
    judge::judged(&DAILY, &[u64::from(d.class), u64::from(d.dtv)])?;
    judge::judge_rest(counted(course, d, s))
}

// Whether a road on a course with its daily figure is allowed.
pub fn judge(course: Course, d: Daily, s: Source) -> Verdict
    ensures { result ≡ spec.daily_verdict course d s }
{
    judge::judge_course(course)?;
    judge::judge_road(s)?;
    judge_daily(course, d, s)
}
