// The upright section through piece, wall and point, in mm: what a wall that counts takes off (VBUS equations 15 to 19).
// Each equation is a definition of specs/Section.antt under the paper's name.
ghost use Rattle.std.specs.Prelude.{◌≡◌, ◌+◌, ◌≤◌, ◌<◌};
ghost use Rattle.root.specs.Root.{root_of};
ghost use Rattle.course.specs.Course.{square};
ghost use Rattle.screen.specs.Section.{Reaches, Upright, section_of, h_d, gamma, lift, z, Dz, screening};

use crate::plan::Ratio;

// How high above the road the source is, in mm.
const SOURCE: u64 = 500;

// From source to point in the plan and in space, the two parts of the plan line, and the heights of the point and of the wall's edge.
#[derive(Clone, Copy)]
pub struct Section {
    pub s0: u64,
    pub s: u64,
    pub a: u64,
    pub b: u64,
    pub h: u64,
    pub edge: u64,
}

// The way over the edge and the way through the wall; the detour z is the first less the second.
#[derive(Clone, Copy)]
pub struct Detour {
    pub over: u64,
    pub through: u64,
}

// The section by the squared distances, the fraction at the wall, and the heights in cm.
pub fn cut(q0: u64, q: u64, f: Ratio, height: u16, wall: u16) -> Section
    requires { Reaches height q0 q × (f.num < f.den) × (f.num ≤ 6710886400000) × (wall ≤ 2000) }
    ensures { result ≡ section_of q0 q f height wall }
{
    let (s0, s) = root::roots(100 * q0, 100 * q);
    let a = f.num * s0 / f.den;
    let b = s0 - a;
    let h = 10 * u64::from(height);
    let edge = 10 * u64::from(wall);
    Section {
        s0,
        s,
        a,
        b,
        h,
        edge,
    }
}

// Equation 17: the height of the straight ray at the wall.
fn ray(c: Section) -> u64
    requires { Upright c }
    ensures { result ≡ h_d c }
{
    SOURCE + c.a * (c.h - SOURCE) / c.s0
}

// Equation 19: the radius of the bent ray.
fn gamma(s: u64) -> u64
    requires { s ≤ 2000000 }
    ensures { result ≡ gamma s }
{
    (8 * s).max(1000000)
}

// Equation 18: how much higher the bent ray is at the wall.
fn lift(c: Section) -> u64
    requires { Upright c }
    ensures { result ≡ lift c }
{
    let parts = c.a * c.b;
    let top = parts * c.s;
    let bottom = 2 * gamma(c.s) * c.s0;
    let flat = top / bottom;
    flat * c.s / c.s0
}

// The square of the length of a slope.
fn square_of(along: u64, up: u64) -> u64
    requires { (along ≤ 2000000) × (up ≤ 3000000) }
    ensures { (result ≡ square along + square up) × (result ≤ square 4000000) }
{
    let flat = along * along;
    let steep = up * up;
    flat + steep
}

// The sum of the roots of two numbers, which are worked out side by side.
fn both(x: u64, y: u64) -> u64
    requires { (x ≤ square 4000000) × (y ≤ square 4000000) }
    ensures { result ≡ root_of x + root_of y }
{
    let (a, b) = root::roots(x, y);
    a + b
}

// Equation 16: the two ways.
fn ways(c: Section, through: u64) -> Detour
    requires { Upright c × (through ≡ h_d c + lift c) }
    ensures { result ≡ z c }
{
    let a = square_of(c.a, c.edge.abs_diff(SOURCE));
    let b = square_of(c.b, c.edge.abs_diff(c.h));
    let a_lifted = square_of(c.a, through.abs_diff(SOURCE));
    let b_lifted = square_of(c.b, through.abs_diff(c.h));
    let over = both(a, b);
    let lifted = both(a_lifted, b_lifted);
    Detour {
        over,
        through: lifted,
    }
}

// Equation 15: what a detour takes off.
fn taken_off(d: Detour) -> u32
    requires { (d.over ≤ 10000000) × (d.through ≤ 20000000) }
    ensures { result ≡ Dz d }
{
    if d.through <= d.over + 33 {
        return level::lv(3000 + 60 * d.over - 60 * d.through) - 3000;
    }
    0
}

// What the wall takes off.
pub fn screening(c: Section) -> u32
    requires { Upright c }
    ensures { result ≡ screening c }
{
    let ray = ray(c);
    if c.edge < ray {
        return 0;
    }
    taken_off(ways(c, ray + lift(c)))
}
