// The kinds of record: the layout of each, its call, which calls are allowed, and the fields of a call.
// A new kind is a new variant of `Kind`; then the check asks for its row in `row` and for its arm in each match.
#![tactic(auto)]

ghost use Rattle.std.specs.Prelude.{◌≡◌, ◌∷◌, ◌++◌, ◌+◌, ◌≤◌, ◌<◌, length};
ghost use Rattle.layout.specs.Layout.{size, Within};
ghost use Rattle.request.specs.Kinds.{kind_at, layout_of, call_in, source_in, counts_verdict, course_kind, counts_kind, verdict_of, kind_number, placed_fields, fields_of};
ghost use Rattle.road.specs.Judge.{source_fields};
ghost use Rattle.request.specs.declared.Request.TheVariants.{PlaceSource};
ghost use Rattle.request.specs.Kinds as kinds;
ghost use Rattle.request.specs.Inner.{filled, shape_of};
ghost use Rattle.kinds.specs.Kind.{number_of, kind_named};
ghost use Rattle.kinds.specs.declared.Kind.TheVariants.{PlaceUncut, PlaceDaily, PlaceBetween};

use course::{Course, Piece};
use request::{Counts, Request, Shape};
use road::{Source, Traffic, Verdict};

// A kind of record, by the number that its records begin with.
#[derive(Clone, Copy)]
pub enum Kind {
    PlaceReceiver = 1,
    WithdrawReceiver = 2,
    // a source by its middle and its length
    PlaceUncut = 3,
    WithdrawSource = 4,
    Ask = 5,
    // one by its daily figure
    PlaceDaily = 6,
    // one by its ends
    PlaceBetween = 7,
    PlaceWall = 8,
    WithdrawWall = 9,
}

impl Kind {
    // The kind that a number names, if it is the number of one.
    #[tactic(auto, unfolding(crate::specs::Kind::kind_named))]
    pub fn of(number: u64) -> Option<Kind>
        ensures { result ≡ kind_named number }
    {
        match number {
            1 => Some(Kind::PlaceReceiver),
            2 => Some(Kind::WithdrawReceiver),
            3 => Some(Kind::PlaceUncut),
            4 => Some(Kind::WithdrawSource),
            5 => Some(Kind::Ask),
            6 => Some(Kind::PlaceDaily),
            7 => Some(Kind::PlaceBetween),
            8 => Some(Kind::PlaceWall),
            9 => Some(Kind::WithdrawWall),
            _ => None,
        }
    }
}

// What every record begins with, in bits: its kind, and the slot of a source, of a receiver or of a wall.
pub const KIND_BITS: u8 = 4;

const SOURCE_SLOT_BITS: u8 = 9;

const RECEIVER_SLOT_BITS: u8 = 6;

const WALL_SLOT_BITS: u8 = 6;

// The widths in bits of a kind: the kind itself, its fields, and its leftover bits where there are any.
static PLACE_RECEIVER: [u8; 6] = [
    KIND_BITS,
    RECEIVER_SLOT_BITS,
    fields::RECEIVER[0].bits,
    fields::RECEIVER[1].bits,
    fields::RECEIVER[2].bits,
    5,
];

// Of a receiver that is withdrawn, and of what is asked at one.
static RECEIVER_SLOT: [u8; 3] = [KIND_BITS, RECEIVER_SLOT_BITS, 6];

// A source's kind, its slot and its course, then its road, which is the same in each kind, and what follows that.
macro_rules! placed {
    ([$($course:expr),*], [$($after:expr),*]) => {
        [
            KIND_BITS,
            SOURCE_SLOT_BITS,
            $($course,)*
            fields::SOURCE[0].bits,
            fields::SOURCE[1].bits,
            fields::SOURCE[2].bits,
            fields::SOURCE[3].bits,
            fields::SOURCE[4].bits,
            fields::SOURCE[5].bits,
            fields::SOURCE[6].bits,
            fields::SOURCE[7].bits,
            fields::SOURCE[8].bits,
            $($after),*
        ]
    };
}

// The same where counts by period follow, and then leftover bits.
macro_rules! counted {
    ([$($course:expr),*], [$($left:expr),*]) => {
        placed!(
            [$($course),*],
            [
                fields::SOURCE[9].bits,
                fields::SOURCE[10].bits,
                fields::SOURCE[11].bits,
                fields::SOURCE[12].bits,
                fields::SOURCE[13].bits,
                fields::SOURCE[14].bits
                $(, $left)*
            ]
        )
    };
}

// Of a source by its middle and its length.
static PLACE_UNCUT: [u8; 20] = counted!(
    [
        fields::PIECE[0].bits,
        fields::PIECE[1].bits,
        fields::PIECE[2].bits
    ],
    []
);

static WITHDRAW_SOURCE: [u8; 3] = [KIND_BITS, SOURCE_SLOT_BITS, 3];

// Of one by its daily figure.
static PLACE_DAILY: [u8; 17] = placed!(
    [
        fields::PIECE[0].bits,
        fields::PIECE[1].bits,
        fields::PIECE[2].bits
    ],
    [daily::DAILY[0].bits, daily::DAILY[1].bits, 2]
);

// Of one by its ends.
static PLACE_BETWEEN: [u8; 22] = counted!(
    [
        fields::ENDS[0].bits,
        fields::ENDS[1].bits,
        fields::ENDS[2].bits,
        fields::ENDS[3].bits
    ],
    [1]
);

static PLACE_WALL: [u8; 8] = [
    KIND_BITS,
    WALL_SLOT_BITS,
    fields::WALL[0].bits,
    fields::WALL[1].bits,
    fields::WALL[2].bits,
    fields::WALL[3].bits,
    fields::WALL[4].bits,
    3,
];

static WITHDRAW_WALL: [u8; 3] = [KIND_BITS, WALL_SLOT_BITS, 6];

// The last slots that their bits can name, however many slots a book has.
const LAST_NAMED_SOURCE: u16 = (1 << SOURCE_SLOT_BITS) - 1;

const LAST_NAMED_RECEIVER: u16 = (1 << RECEIVER_SLOT_BITS) - 1;

const LAST_NAMED_WALL: u16 = (1 << WALL_SLOT_BITS) - 1;

// Where the fields after the slot start among the numbers of a record.
const FIRST: usize = 2;

// And where those after a piece, and after two ends.
const AFTER_PIECE: usize = FIRST + fields::PIECE_ROWS;

const AFTER_ENDS: usize = FIRST + fields::ENDS_ROWS;

// How many a road has with its daily figure.
const FIGURES: usize = fields::ROAD_ROWS + daily::DAILY_ROWS;

// The widths of a kind, how many fields it has, and how many bytes.
#[tactic(auto, unfolding(request::specs::Kinds::kind_at))]
fn row(kind: Kind) -> (&'static [u8], usize, usize)
    ensures { (result.0.now ≡ layout_of (number_of kind)) × (result.1 ≡ (kind_at (number_of kind)).fields) × (result.2 ≡ size (layout_of (number_of kind))) }
{
    match kind {
        Kind::PlaceReceiver => (&PLACE_RECEIVER, 1 + fields::RECEIVER_ROWS, 9),
        Kind::WithdrawReceiver => (&RECEIVER_SLOT, 1, 2),
        Kind::PlaceUncut => (
            &PLACE_UNCUT,
            1 + fields::PIECE_ROWS + fields::SOURCE_ROWS,
            30,
        ),
        Kind::WithdrawSource => (&WITHDRAW_SOURCE, 1, 2),
        Kind::Ask => (&RECEIVER_SLOT, 1, 2),
        Kind::PlaceDaily => (&PLACE_DAILY, 1 + fields::PIECE_ROWS + FIGURES, 20),
        Kind::PlaceBetween => (
            &PLACE_BETWEEN,
            1 + fields::ENDS_ROWS + fields::SOURCE_ROWS,
            34,
        ),
        Kind::PlaceWall => (&PLACE_WALL, 1 + fields::WALL_ROWS, 15),
        Kind::WithdrawWall => (&WITHDRAW_WALL, 1, 2),
    }
}

// The sizes of a kind's layout.
pub fn shape_of(kind: Kind) -> Shape
    ensures { result ≡ shape_of (number_of kind) }
{
    let (widths, fields, bytes) = row(kind);
    Shape {
        count: widths.len(),
        fields,
        bytes,
    }
}

// The layout of a kind.
pub fn layout_of(kind: Kind) -> &'static [u8]
    ensures { result.now ≡ layout_of (number_of kind) }
{
    row(kind).0
}

// The same of a number with which a record may begin: one that names no kind has no field and no byte.
pub fn shape_of_number(number: usize) -> Shape
    ensures { result ≡ shape_of number }
{
    match Kind::of(number as u64) {
        Some(kind) => shape_of(kind),
        None => Shape {
            count: 0,
            fields: 0,
            bytes: 0,
        },
    }
}

// And no layout.
pub fn layout_of_number(number: usize) -> &'static [u8]
    ensures { result.now ≡ layout_of number }
{
    match Kind::of(number as u64) {
        Some(kind) => layout_of(kind),
        None => &[],
    }
}

// What the fields of a kind ask for.
#[tactic(auto, unfolding(request::specs::Kinds::kind_at))]
pub fn call(kind: Kind, v: &[u64]) -> Request
    requires { Within (layout_of (number_of kind)) v.now }
    ensures { result ≡ call_in (number_of kind) v.now }
{
    let slot = v[1] as u16;
    match kind {
        Kind::PlaceReceiver => Request::PlaceReceiver(slot, fields::receiver_of(v, FIRST)),
        Kind::WithdrawReceiver => Request::WithdrawReceiver(slot),
        Kind::PlaceUncut | Kind::PlaceBetween => Request::PlaceSource(slot, Counts::ByPeriod),
        Kind::WithdrawSource => Request::WithdrawSource(slot),
        Kind::Ask => Request::Ask(slot),
        Kind::PlaceDaily => {
            let p = fields::piece_of(v, FIRST);
            let d = daily::daily_of(&v[AFTER_PIECE..AFTER_PIECE + FIGURES]);
            Request::PlaceSource(slot, Counts::ByDay(p, d))
        }
        Kind::PlaceWall => Request::PlaceWall(slot, fields::wall_of(v, FIRST)),
        Kind::WithdrawWall => Request::WithdrawWall(slot),
    }
}

// Which sources are allowed, by how their traffic is told.
fn judge_counts(counts: Counts, source: Source) -> Verdict
    ensures { result ≡ counts_verdict counts source }
{
    match counts {
        Counts::ByPeriod => judge::judge_source(source),
        Counts::ByDay(p, d) => daily::judge(Course::Uncut(p), d, source),
    }
}

// Which calls are allowed.
#[tactic(auto, unfolding(request::specs::Kinds::verdict_of))]
pub fn verdict(call: Request, source: Source) -> Verdict
    ensures { result ≡ verdict_of call source }
{
    match call {
        Request::PlaceReceiver(slot, r) => {
            judge::judge_slot(LAST_NAMED_RECEIVER, slot)?;
            judge::judge_receiver(r)
        }
        Request::WithdrawReceiver(slot) => judge::judge_slot(LAST_NAMED_RECEIVER, slot),
        Request::PlaceSource(slot, counts) => {
            judge::judge_slot(LAST_NAMED_SOURCE, slot)?;
            judge_counts(counts, source)
        }
        Request::WithdrawSource(slot) => judge::judge_slot(LAST_NAMED_SOURCE, slot),
        Request::Ask(slot) => judge::judge_slot(LAST_NAMED_RECEIVER, slot),
        Request::PlaceWall(slot, w) => {
            judge::judge_slot(LAST_NAMED_WALL, slot)?;
            judge::judge_wall(w)
        }
        Request::WithdrawWall(slot) => judge::judge_slot(LAST_NAMED_WALL, slot),
    }
}

// The kind of a record that places a source with its counts by period.
fn course_kind(course: Course) -> Kind
    ensures { number_of result ≡ course_kind course }
{
    match course {
        Course::Uncut(_) => Kind::PlaceUncut,
        Course::Between(_) => Kind::PlaceBetween,
    }
}

// And with its counts however they are told.
fn counts_kind(counts: Counts, source: Source) -> Kind
    ensures { number_of result ≡ counts_kind counts source }
{
    match counts {
        Counts::ByPeriod => course_kind(source.course),
        Counts::ByDay(_, _) => Kind::PlaceDaily,
    }
}

// The kind of a call.
pub fn kind_of(call: Request, source: Source) -> Kind
    ensures { number_of result ≡ kind_number call source }
{
    match call {
        Request::PlaceReceiver(_, _) => Kind::PlaceReceiver,
        Request::WithdrawReceiver(_) => Kind::WithdrawReceiver,
        Request::PlaceSource(_, counts) => counts_kind(counts, source),
        Request::WithdrawSource(_) => Kind::WithdrawSource,
        Request::Ask(_) => Kind::Ask,
        Request::PlaceWall(_, _) => Kind::PlaceWall,
        Request::WithdrawWall(_) => Kind::WithdrawWall,
    }
}

// A source that is all zero.
pub fn blank() -> Source
    ensures { result ≡ kinds.blank }
{
    let traffic = [Traffic { m: 0, p: 0 }; 3];
    let course = Course::Uncut(Piece {
        x: 0,
        y: 0,
        length: 0,
    });
    Source {
        course,
        lanes: 0,
        car: 0,
        truck: 0,
        surface: 0,
        gradient: 0,
        reflection: 0,
        walls: 0,
        height: 0,
        spacing: 0,
        traffic,
    }
}

// A source by its middle and its length.
fn uncut_source(v: &[u64]) -> Source
    requires { Within (layout_of (number_of PlaceUncut)) v.now }
    ensures { result ≡ source_in (number_of PlaceUncut) v.now }
{
    let course = Course::Uncut(fields::piece_of(v, FIRST));
    let s = fields::source_of(course, v, AFTER_PIECE);
    s
}

// The one that a daily figure stands for.
fn daily_source(v: &[u64]) -> Source
    requires { Within (layout_of (number_of PlaceDaily)) v.now }
    ensures { result ≡ source_in (number_of PlaceDaily) v.now }
{
    let course = Course::Uncut(fields::piece_of(v, FIRST));
    daily::source_of(course, &v[AFTER_PIECE..AFTER_PIECE + FIGURES])
}

// A source by its ends.
fn ends_source(v: &[u64]) -> Source
    requires { Within (layout_of (number_of PlaceBetween)) v.now }
    ensures { result ≡ source_in (number_of PlaceBetween) v.now }
{
    let course = Course::Between(fields::ends_of(v, FIRST));
    fields::source_of(course, v, AFTER_ENDS)
}

// The source beside the call that the fields of a kind ask for.
#[tactic(auto, unfolding(request::specs::Kinds::kind_at))]
pub fn source(kind: Kind, v: &[u64]) -> Source
    requires { Within (layout_of (number_of kind)) v.now }
    ensures { result ≡ source_in (number_of kind) v.now }
{
    match kind {
        Kind::PlaceUncut => uncut_source(v),
        Kind::PlaceDaily => daily_source(v),
        Kind::PlaceBetween => ends_source(v),
        Kind::PlaceReceiver
        | Kind::WithdrawReceiver
        | Kind::WithdrawSource
        | Kind::Ask
        | Kind::PlaceWall
        | Kind::WithdrawWall => blank(),
    }
}

// The same of a number with which a record may begin: one that names no kind has a source of zeros beside it.
pub fn source_of_number(number: usize, v: &[u64]) -> Source
    requires { Within (layout_of number) v.now }
    ensures { result ≡ source_in number v.now }
{
    match Kind::of(number as u64) {
        Some(kind) => source(kind, v),
        None => blank(),
    }
}

// A kind, a slot and the fields after it, with zeros after them.
fn join(kind: Kind, slot: u16, fields: &[u64]) -> [u64; 25]
    requires { length fields.now ≤ 23 }
    ensures { result ≡ filled (number_of kind ∷ slot ∷ fields.now) }
{
    let mut v = [0u64; 25];
    v[0] = kind as u64;
    v[1] = u64::from(slot);
    layout::lay(fields, &mut v, FIRST);
    v
}

// A kind, a slot, a course and the fields after it, with zeros after them.
fn join_course(kind: Kind, slot: u16, course: &[u64], fields: &[u64]) -> [u64; 25]
    requires { length course.now + length fields.now ≤ 23 }
    ensures { result ≡ filled (number_of kind ∷ slot ∷ (course.now ++ fields.now)) }
{
    let mut v = join(kind, slot, course);
    layout::lay(fields, &mut v, FIRST + course.len());
    v
}

// The kind, the fields and the leftover bits of a source that is placed on a course, with zeros after them.
#[tactic(auto, unfolding(request::specs::Inner::filled))]
fn placed_fields(slot: u16, course: Course, source: Source) -> [u64; 25]
    ensures { result ≡ filled (placed_fields course slot (source_fields source)) }
{
    let fields = fields::source_values(source);
    match course {
        Course::Uncut(p) => {
            let values = fields::piece_values(p);
            join_course(Kind::PlaceUncut, slot, &values, &fields)
        }
        Course::Between(e) => {
            let values = fields::ends_values(e);
            join_course(Kind::PlaceBetween, slot, &values, &fields)
        }
    }
}

// And of one however its traffic is told.
#[tactic(auto, unfolding(request::specs::Inner::filled))]
fn source_fields(slot: u16, counts: Counts, source: Source) -> [u64; 25]
    ensures { result ≡ filled (fields_of (PlaceSource slot counts) source) }
{
    match counts {
        Counts::ByPeriod => placed_fields(slot, source.course, source),
        Counts::ByDay(p, d) => {
            let values = fields::piece_values(p);
            let fields = daily::values(d, source);
            join_course(Kind::PlaceDaily, slot, &values, &fields[..FIGURES])
        }
    }
}

// And of a call. Leftover bits may be the first of the zeros.
#[tactic(auto, unfolding(request::specs::Inner::filled))]
pub fn fields_of(call: Request, source: Source) -> [u64; 25]
    ensures { result ≡ filled (fields_of call source) }
{
    let leftover = [0u64; 1];
    match call {
        Request::PlaceReceiver(slot, r) => {
            let fields = fields::receiver_values(r);
            join(Kind::PlaceReceiver, slot, &fields)
        }
        Request::WithdrawReceiver(slot) => join(Kind::WithdrawReceiver, slot, &leftover),
        Request::PlaceSource(slot, counts) => source_fields(slot, counts, source),
        Request::WithdrawSource(slot) => join(Kind::WithdrawSource, slot, &leftover),
        Request::Ask(slot) => join(Kind::Ask, slot, &leftover),
        Request::PlaceWall(slot, w) => {
            let fields = fields::wall_values(w);
            join(Kind::PlaceWall, slot, &fields)
        }
        Request::WithdrawWall(slot) => join(Kind::WithdrawWall, slot, &leftover),
    }
}
