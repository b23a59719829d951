// Source slots, from the start of the store on.
// Numbers are those of a slot, its use mark first.
ghost use Rattle.std.specs.Prelude.{◌≡◌, ◌*◌, ◌<◌, length, drop, Ok};
ghost use Rattle.road.specs.Fields.{Fit};
ghost use Rattle.road.specs.Judge.{source_verdict};
ghost use Rattle.store.specs.Slots.{party_layout};
ghost use Rattle.store.specs.Placed.{source_place, source_placed};
ghost use Rattle.store.specs.Store.{source_count, course_numbers, is_course, course_from, source_party, source_at, source_slot_of};

use crate::party::Slotted;
use crate::slot::Slots;
use crate::{SOURCE_SIZE, SOURCES};
use course::Course;
use fields::{ENDS, SOURCE};
use road::Source;

// A slot's numbers: its mark, the form of the course, the four numbers of that, and the other values of a source.
const FORM: usize = 1;

const COURSE: usize = FORM + 1;

const REST: usize = COURSE + fields::ENDS_ROWS;

const NUMBERS: usize = REST + fields::SOURCE_ROWS;

// The form of a road between two ends. That of an uncut piece is 0.
const BETWEEN: u64 = 1;

// Where they stand, and the widths of the numbers: a byte for the mark, one for the form, the bytes of each field.
static SLOTS: Slots<NUMBERS> = Slots {
    begin: 0,
    count: SOURCES,
    size: SOURCE_SIZE,
    widths: [
        8,
        8,
        8 * ENDS[0].bytes,
        8 * ENDS[1].bytes,
        8 * ENDS[2].bytes,
        8 * ENDS[3].bytes,
        8 * SOURCE[0].bytes,
        8 * SOURCE[1].bytes,
        8 * SOURCE[2].bytes,
        8 * SOURCE[3].bytes,
        8 * SOURCE[4].bytes,
        8 * SOURCE[5].bytes,
        8 * SOURCE[6].bytes,
        8 * SOURCE[7].bytes,
        8 * SOURCE[8].bytes,
        8 * SOURCE[9].bytes,
        8 * SOURCE[10].bytes,
        8 * SOURCE[11].bytes,
        8 * SOURCE[12].bytes,
        8 * SOURCE[13].bytes,
        8 * SOURCE[14].bytes,
    ],
};

// The course that numbers describe.
fn course_from(v: &[u64; NUMBERS]) -> Course
    requires { Fit (party_layout source_party) 0 v.now }
    ensures { result ≡ course_from (drop 1 v.now) }
{
    if v[FORM] == BETWEEN {
        Course::Between(fields::ends_of(v, COURSE))
    } else {
        Course::Uncut(fields::piece_of(v, COURSE))
    }
}

// Whether they describe one: nothing follows the three numbers of an uncut piece.
fn is_course(v: &[u64; NUMBERS]) -> bool
    ensures { result ≡ is_course (drop 1 v.now) }
{
    let form = v[FORM];
    let last = v[REST - 1];
    form == BETWEEN || (form == 0 && last == 0)
}

// The numbers of a course.
fn course_numbers(course: Course) -> [u64; 1 + fields::ENDS_ROWS]
    ensures { result ≡ course_numbers course }
{
    match course {
        Course::Uncut(p) => {
            let [x, y, length] = fields::piece_values(p);
            [0, x, y, length, 0]
        }
        Course::Between(e) => {
            let [x1, y1, x2, y2] = fields::ends_values(e);
            [BETWEEN, x1, y1, x2, y2]
        }
    }
}

impl Slotted<NUMBERS> for Source {
    ghost party = { source_party };

    ghost count = { source_count };

    ghost begin = { 0 };

    ghost place = { source_place };

    ghost slot = { source_at };

    ghost reading = { source_slot_of };

    ghost stands = { λ s. source_verdict s ≡ Ok tt };

    fn slots<'a>() -> &'a Slots<NUMBERS> {
        &SLOTS
    }

    fn from_numbers(v: &[u64; NUMBERS]) -> Source {
        fields::source_of(course_from(v), v, REST)
    }

    fn allowed(v: &[u64; NUMBERS]) -> bool {
        is_course(v) && judge::judge_source(Source::from_numbers(v)).is_ok()
    }

    fn numbers(self) -> [u64; NUMBERS] {
        let mut v = [0; NUMBERS];
        v[0] = 1;
        v[FORM..REST].copy_from_slice(&course_numbers(self.course));
        v[REST..].copy_from_slice(&fields::source_values(self));
        v
    }

    ghost placed = { source_placed };
}
