// The plan: on which side of a line a point lies, whether a wall counts, and at which part of the plan line it stands (specs/Plan.antt).
// All in whole numbers: products of two coordinates, their sums, and which sum is the larger.
ghost use Rattle.std.specs.Prelude.{◌≡◌, ◌*◌, ◌^◌, ◌≤◌, ◌<◌};
ghost use Rattle.screen.specs.Plan.{OnPlan, WallOnPlan, start, end, around, turn, area, opposite, beside, clear, aside, counts, fraction_of};

use crate::{Point, Wall};

// Twice the area of a triangle as two sums, whose difference it is. Going from its first point to its second, the third lies left
// or right as the left or the right sum is larger, and on the line where they are equal.
#[derive(Clone, Copy)]
pub struct Sides {
    pub left: u64,
    pub right: u64,
}

// An exact fraction.
#[derive(Clone, Copy)]
pub struct Ratio {
    pub num: u64,
    pub den: u64,
}

// A coordinate times a coordinate.
fn product(a: u32, b: u32) -> u64
    requires { (a < 2 ^ 24) × (b < 2 ^ 24) }
    ensures { (result ≡ a * b) × (result ≤ 2 ^ 48) }
{
    u64::from(a) * u64::from(b)
}

// Once round a triangle: what the shoelace formula adds.
fn around(a: Point, b: Point, c: Point) -> u64
    requires { OnPlan a × OnPlan b × OnPlan c }
    ensures { result ≡ around a b c }
{
    product(a.x, b.y) + product(b.x, c.y) + product(c.x, a.y)
}

// Where c lies of the line from a to b.
fn turn(a: Point, b: Point, c: Point) -> Sides
    requires { OnPlan a × OnPlan b × OnPlan c }
    ensures { result ≡ turn a b c }
{
    let left = around(a, b, c);
    let right = around(b, a, c);
    Sides { left, right }
}

// Twice the area.
fn area(t: Sides) -> u64
    ensures { result ≡ area t }
{
    t.left.abs_diff(t.right)
}

// Strictly on opposite sides.
// By hand, here and in `beside`: by `cmp` there would be a third outcome to leave out, that a point is on the line.
fn opposite(t: Sides, u: Sides) -> bool
    ensures { result ≡ opposite t u }
{
    ((t.left < t.right) & (u.right < u.left)) | ((t.right < t.left) & (u.left < u.right))
}

// Strictly on one side.
fn beside(t: Sides, u: Sides) -> bool
    ensures { result ≡ beside t u }
{
    ((t.left < t.right) & (u.left < u.right)) | ((t.right < t.left) & (u.right < u.left))
}

// Whether a and b lie both below, or both above, p and r.
fn clear(a: u32, b: u32, p: u32, r: u32) -> bool
    ensures { result ≡ clear a b p r }
{
    let below = a.max(b) < p.min(r);
    let above = p.max(r) < a.min(b);
    below | above
}

// Whether a wall has both ends on one side of the box of p and r: it does not count then.
fn aside(p: Point, r: Point, w: Wall) -> bool
    ensures { result ≡ aside p r w }
{
    let e = w.ends;
    clear(e.x1, e.x2, p.x, r.x) | clear(e.y1, e.y2, p.y, r.y)
}

// The two ends of a wall.
fn ends(w: Wall) -> (Point, Point)
    ensures { result ≡ (start w, end w) }
{
    let e = w.ends;
    let a = Point { x: e.x1, y: e.y1 };
    let b = Point { x: e.x2, y: e.y2 };
    (a, b)
}

// Whether a wall counts between p and r, by the turns: most walls leave both on one side, and no more is asked of them.
fn crosses(p: Point, r: Point, w: Wall) -> bool
    requires { OnPlan p × OnPlan r × WallOnPlan w }
    ensures { result ≡ counts p r w }
{
    let (a, b) = ends(w);
    if !opposite(turn(a, b, p), turn(a, b, r)) {
        return false;
    }
    !beside(turn(p, r, a), turn(p, r, b))
}

// Whether a wall counts between p and r: most walls lie aside, and no turns are asked of them.
pub fn counts(p: Point, r: Point, w: Wall) -> bool
    requires { OnPlan p × OnPlan r × WallOnPlan w }
    ensures { result ≡ counts p r w }
{
    if aside(p, r, w) {
        return false;
    }
    crosses(p, r, w)
}

// The fraction of the plan line at which it crosses the wall's line.
pub fn fraction(p: Point, r: Point, w: Wall) -> Ratio
    requires { OnPlan p × OnPlan r × WallOnPlan w }
    ensures { result ≡ fraction_of p r w }
{
    let (a, b) = ends(w);
    let num = area(turn(a, b, p));
    let rest = area(turn(a, b, r));
    let den = num + rest;
    Ratio { num, den }
}
