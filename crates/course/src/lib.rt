// Where a road runs (METHOD 7): an uncut piece by its middle and its length, or between two ends, which is cut into pieces for a point.
// What the cutting is made of is here; the recursion over the halves adds up shares, and is in the crate reach.
#![tactic(auto)]

ghost use Rattle.std.specs.Prelude.{◌≡◌, ◌^◌, ◌<◌, ◌≤◌};
ghost use Rattle.course.specs.Course.{mean, plan_between, length_of, lengths_of, one_piece, whole_of, first_half, second_half, too_long, Mapped, Drawn};

// What is no longer is not cut, in cm.
const CUT_ABOVE: u32 = 250;

// A piece of road by its middle and its length.
#[derive(Clone, Copy)]
pub struct Piece {
    pub x: u32,
    pub y: u32,
    pub length: u32,
}

// A road by its first end and its second.
// May not change: that 24 bits hold them (`Mapped`) is asked of each call, since ends are read before they are judged.
#[derive(Clone, Copy)]
pub struct Ends {
    pub x1: u32,
    pub y1: u32,
    pub x2: u32,
    pub y2: u32,
}

// A road is told by a piece that is not cut, or by its ends.
#[derive(Clone, Copy)]
pub enum Course {
    Uncut(Piece),
    Between(Ends),
}

// The squared distance of two points in the plan.
pub fn plan_between(x1: u32, y1: u32, x2: u32, y2: u32) -> u64
    requires { (x1 < 2 ^ 24) × (y1 < 2 ^ 24) × (x2 < 2 ^ 24) × (y2 < 2 ^ 24) }
    ensures { result ≡ plan_between x1 y1 x2 y2 }
{
    let dx = u64::from(x1.abs_diff(x2));
    let dy = u64::from(y1.abs_diff(y2));
    let across = dx * dx;
    let along = dy * dy;
    across + along
}

// The squared distance of the two ends of a road.
fn squared(e: Ends) -> u64
    requires { Mapped e }
    ensures { result ≡ plan_between e.x1 e.y1 e.x2 e.y2 }
{
    plan_between(e.x1, e.y1, e.x2, e.y2)
}

// The length of a road between two ends.
pub fn length(e: Ends) -> u32
    requires { Mapped e }
    ensures { result ≡ length_of e }
{
    let root = root::root(squared(e));
    root as u32
}

// The lengths of two roads, whose roots are worked out side by side.
pub fn lengths_of(a: Ends, b: Ends) -> (u32, u32)
    requires { Mapped a × Mapped b }
    ensures { result ≡ lengths_of a b }
{
    let (first, second) = root::roots(squared(a), squared(b));
    (first as u32, second as u32)
}

// The middle of a road between two ends.
fn middle(e: Ends) -> (u32, u32)
    requires { Mapped e }
    ensures { result ≡ (mean e.x1 e.x2, mean e.y1 e.y2) }
{
    (e.x1.midpoint(e.x2), e.y1.midpoint(e.y2))
}

// All of it as one piece, by its length.
pub fn whole(e: Ends, length: u32) -> Piece
    requires { Mapped e × (length ≡ length_of e) }
    ensures { result ≡ one_piece e }
{
    let (x, y) = middle(e);
    Piece { x, y, length }
}

// All of a road as one piece.
pub fn whole_of(c: Course) -> Piece
    requires { Drawn c }
    ensures { result ≡ whole_of c }
{
    match c {
        Course::Uncut(p) => p,
        Course::Between(e) => whole(e, length(e)),
    }
}

// The half from the first end to the middle.
pub fn first_half(e: Ends) -> Ends
    requires { Mapped e }
    ensures { result ≡ first_half e }
{
    let (x2, y2) = middle(e);
    Ends { x2, y2, ..e }
}

// The half from the middle to the second end.
pub fn second_half(e: Ends) -> Ends
    requires { Mapped e }
    ensures { result ≡ second_half e }
{
    let (x1, y1) = middle(e);
    Ends { x1, y1, ..e }
}

// Whether a road of length l is to be cut at the squared distance q.
pub fn too_long(l: u32, q: u64) -> bool
    requires { l ≤ 2 ^ 25 }
    ensures { result ≡ too_long l q }
{
    let long = u64::from(l);
    let square = long * long;
    (CUT_ABOVE < l) & (q < 4 * square)
}
