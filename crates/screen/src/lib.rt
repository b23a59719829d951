// Noise walls (VBUS section 3.9, METHOD 7): which of the standing walls count between a piece of road and a point, and what the one that
// counts takes off. In the plan: `plan`. In the upright section through piece, wall and point: `section`.
#![tactic(auto)]

pub mod plan;
pub mod section;

ghost use Rattle.std.specs.Prelude.{◌≡◌, ◌≤◌, true, IfSome};
ghost use Rattle.course.specs.Course.{plan_between};
ghost use Rattle.screen.specs.Plan.{OnPlan, WallOnPlan, counts};
ghost use Rattle.screen.specs.Section.{Reaches, screening_of};
ghost use Rattle.screen.specs.Screen.{AllOnPlan, one_more, look_at, met_of, loss_of};

use course::Ends;
use std::marker::Model;

// A point of the plan, in cm.
// May not change: that 24 bits hold it (`OnPlan`) is asked of each call, since the definitions speak of all points.
#[derive(Clone, Copy)]
pub struct Point {
    pub x: u32,
    pub y: u32,
}

// A wall: its two ends, and its height in cm.
#[derive(Clone, Copy)]
pub struct Wall {
    pub ends: Ends,
    pub height: u16,
}

// The walls that stand, each of them on the plan.
#[derive(Drop)]
pub struct Walls<'a> {
    all: &'a [Wall],
}

impl<'a> Model for Walls<'a> {
    ghost use Rattle.std.specs.Prelude.{List};
    ghost use Rattle.screen.specs.declared.Wall.{Wall};
    ghost use Rattle.screen.specs.Screen.{AllOnPlan};

    ghost Value = { List Wall };

    ghost view = { λ s. s.all.now };

    ghost invariant = { λ s. AllOnPlan s.all.now };
}

impl<'a> Walls<'a> {
    // The walls of a list, as those that stand.
    pub fn of(all: &'a [Wall]) -> Walls<'a>
        requires { AllOnPlan all.now }
        ensures { result ≡ all.now }
    {
        Walls { all }
    }
}

// The walls that count between a piece and a point.
// By hand: an Option has two cases, and here are three.
#[derive(Clone, Copy)]
pub enum Met {
    Nothing,
    One(Wall),
    Several,
}

// What is met when one wall more counts.
fn one_more(met: Met, w: Wall) -> Met
    ensures { result ≡ one_more met w }
{
    match met {
        Met::Nothing => Met::One(w),
        Met::One(_) => Met::Several,
        Met::Several => Met::Several,
    }
}

// What is met after a look at one wall more.
fn look(p: Point, r: Point, met: Met, w: Wall) -> Met
    requires { OnPlan p × OnPlan r × WallOnPlan w }
    ensures { result ≡ look_at p r met w }
{
    if plan::counts(p, r, w) {
        return one_more(met, w);
    }
    met
}

// Which of the walls count between the middle p of a piece and the point r.
pub fn meet(p: Point, r: Point, walls: &Walls) -> Met
    requires { OnPlan p × OnPlan r }
    ensures { (result ≡ met_of p r walls.now) × AllOnPlan walls.now }
{
    let mut met = Met::Nothing;
    for w in walls.all {
        met = look(p, r, met, *w);
    }
    met
}

// What a wall that counts takes off, by the squared distances in the plan and in space.
pub fn screening(p: Point, r: Point, height: u16, q0: u64, q: u64, w: Wall) -> u32
    requires fits { OnPlan p × OnPlan r × WallOnPlan w × (counts p r w ≡ true) }
    requires q0_value { (q0 ≡ plan_between p.x p.y r.x r.y) × Reaches height q0 q }
    ensures { result ≡ screening_of p r height q0 q w }
{
    let f = plan::fraction(p, r, w);
    let c = section::cut(q0, q, f, height, w.height);
    section::screening(c)
}

// What the walls between the middle p of a piece and the point r take off, in hundredths of a dB; None where more than one counts.
pub fn screened(p: Point, r: Point, height: u16, q0: u64, q: u64, walls: &Walls) -> Option<u32>
    requires fits { OnPlan p × OnPlan r }
    requires q0_value { (q0 ≡ plan_between p.x p.y r.x r.y) × Reaches height q0 q }
    ensures { (result ≡ loss_of p r height q0 q walls.now) × IfSome result (λ d. d ≤ 6000) }
{
    match meet(p, r, walls) {
        Met::Nothing => Some(0),
        Met::One(w) => Some(screening(p, r, height, q0, q, w)),
        Met::Several => None,
    }
}
