// The 25 m case and its neighbours: a road that passes a point, whole.
// The point is at (100000, 100000); the road lies east of it.
ghost use Rattle.std.specs.Prelude.{◌≡◌, ◌≤◌, [], Ok};
ghost use Rattle.course.specs.Course.{whole_of};
ghost use Rattle.road.specs.declared.Shares.{Shares};
ghost use Rattle.road.specs.Reach.{pair_of};
ghost use Rattle.road.specs.Figures.{home};

use crate::print;
use answer::Refusal;
use course::{Course, Ends, Piece};
use ledger::round;
use road::{Receiver, Shares, Source, Term, Traffic};
use screen::Walls;

// The point.
pub fn point() -> Receiver
    ensures { result ≡ home }
{
    Receiver {
        x: 100000,
        y: 100000,
        height: 400,
    }
}

// A piece of it, with its middle at x and of some length.
fn piece(x: u32, length: u32) -> Piece
    ensures { (result.x ≡ x) × (result.y ≡ 100000) }
{
    Piece {
        x,
        y: 100000,
        length,
    }
}

// The road, wherever it runs.
fn road_on(course: Course) -> Source
    ensures { result.course ≡ course }
{
    let busy = Traffic { m: 1000000, p: 0 };
    let late = Traffic { m: 100000, p: 0 };
    Source {
        course,
        lanes: 0,
        car: 100,
        truck: 80,
        surface: 1,
        gradient: 0,
        reflection: 0,
        walls: 0,
        height: 0,
        spacing: 0,
        traffic: [busy, busy, late],
    }
}

// With its middle at x and of some length.
pub fn street(x: u32, length: u32) -> Source
    ensures { ((whole_of result.course).x ≡ x) × ((whole_of result.course).y ≡ 100000) }
{
    road_on(Course::Uncut(piece(x, length)))
}

// Between two ends at x.
fn between(x: u32, south: u32, north: u32) -> Source {
    road_on(Course::Between(Ends {
        x1: x,
        y1: south,
        x2: x,
        y2: north,
    }))
}

// Squared distance, distance, and what distance and ground take off. H is 450, twice the mean height of the ray.
fn way(rt: &HostRuntime, names: &[u8], x: u32)
    requires { (100000 ≤ x) × (x ≤ 110000) }
{
    let r = point();
    let q = reach::space(reach::plan(piece(x, 1000), r), r.height);
    let far = root::root(q);
    let ground = reach::ground(450, far);
    let way = reach::way(q, far, 450, 0);
    let distance = Term {
        up: way.down,
        down: way.up + ground,
    };
    print::number(rt, names, 0, q);
    print::number(rt, names, 1, far);
    print::level(rt, names, 2, distance);
    print::number(rt, names, 3, u64::from(ground));
}

// A road at the point, with no wall anywhere: its fields are judged, and then the pair. The shares, or why they are refused, with the slot 0.
fn meet(s: Source) -> Result<Shares, Refusal>
    ensures { (h : Shares) → result ≡ Ok h → pair_of [] s home ≡ Ok h }
{
    judge::judge_source(s)?;
    reach::pair(&Walls::of(&[]), &emission::sends(s), point()).map_err(|bar| round::bar_at(0, bar))
}

// What speed gives, for the road's two speeds.
fn speed(rt: &HostRuntime, names: &[u8]) {
    let s = street(102500, 1000);
    match judge::judge_source(s) {
        Err(why) => print::refusal(rt, names, 0, why),
        Ok(()) => {
            let pace = emission::pace_of(s);
            print::level(rt, names, 0, emission::speed(pace, 0));
            print::level(rt, names, 1, emission::speed(pace, 200));
        }
    }
}

// The shares of the road, as energies and as levels.
fn shares(rt: &HostRuntime, names: &[u8], s: Source) {
    match meet(s) {
        Err(why) => print::refusal(rt, names, 0, why),
        Ok(h) => {
            print::number(rt, names, 0, h.day);
            print::number(rt, names, 1, h.evening);
            print::number(rt, names, 2, h.night);
            print::heard(rt, names, 3, level::level(h.day));
            print::heard(rt, names, 4, level::level(h.evening));
            print::heard(rt, names, 5, level::level(h.night));
        }
    }
}

// The road twice, at night.
fn twice(rt: &HostRuntime, names: &[u8]) {
    match meet(street(102500, 1000)) {
        Err(why) => print::refusal(rt, names, 0, why),
        Ok(h) => {
            let both = h.night + h.night;
            print::heard(rt, names, 0, level::level(both));
        }
    }
}

// Whether the road is heard at the point.
fn limit(rt: &HostRuntime, names: &[u8], k: usize, x: u32, length: u32) {
    match meet(street(x, length)) {
        Err(why) => print::refusal(rt, names, k, why),
        Ok(_) => print::word(rt, names, k, b"heard\n"),
    }
}

// The longest piece at 25 m, and the nearest road.
fn limits(rt: &HostRuntime, names: &[u8]) {
    limit(rt, names, 0, 102500, 1262);
    limit(rt, names, 1, 102500, 1263);
    limit(rt, names, 2, 100357, 1000);
    limit(rt, names, 3, 100358, 100);
}

// The road at 25 m, once and twice.
fn at_25(rt: &HostRuntime) {
    way(
        rt,
        b"25 m: Q \n25 m: r \n25 m: Ds \n25 m: ground \n",
        102500,
    );
    shares(
        rt,
        b"25 m: energy by day \n25 m: energy in the evening \n25 m: energy at night \n25 m: share by day \n25 m: share in the evening \n25 m: share at night \n",
        street(102500, 1000),
    );
    twice(rt, b"25 m, twice: night level \n");
}

// The road at 100 m.
fn at_100(rt: &HostRuntime) {
    way(
        rt,
        b"x 110000: Q \nx 110000: r \nx 110000: Ds \nx 110000: ground \n",
        110000,
    );
    shares(
        rt,
        b"x 110000: energy by day \nx 110000: energy in the evening \nx 110000: energy at night \nx 110000: share by day \nx 110000: share in the evening \nx 110000: share at night \n",
        street(110000, 1000),
    );
}

// The road at 25 m between two ends 12.63 m apart: it is cut into two pieces, and their energies add up.
fn cut(rt: &HostRuntime) {
    shares(
        rt,
        b"25 m, cut: energy by day \n25 m, cut: energy in the evening \n25 m, cut: energy at night \n25 m, cut: share by day \n25 m, cut: share in the evening \n25 m, cut: share at night \n",
        between(102500, 99369, 100632),
    );
}

// All of them.
pub fn all(rt: &HostRuntime) {
    speed(rt, b"v 100, u 80, p 0: Dv \nv 100, u 80, p 200: Dv \n");
    at_25(rt);
    at_100(rt);
    cut(rt);
    limits(
        rt,
        b"25 m, l 1262: \n25 m, l 1263: \ndx 357: \ndx 358, l 100: \n",
    );
}
