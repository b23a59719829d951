// What of a road reaches a point (VBUS sections 3.4, 3.6, 3.7, 3.9, 3.10): a pair's three shares, or why it is barred.
// The terms are those of road's specs/Reach.antt; what the road sends out has been worked out before.
#![tactic(auto)]

ghost use Rattle.std.specs.Prelude.{◌≡◌, ◌+◌, ◌-◌, ◌*◌, ◌<◌, ◌≤◌, [], ◌∷◌, Ok};
ghost use Rattle.road.specs.Term.{◌⊕◌};
ghost use Rattle.course.specs.Course.{square, length_of, one_piece, pieces_between, Mapped};
ghost use Rattle.road.specs.Limits.{coordinate, longest};
ghost use Rattle.road.specs.Reach.{source_height, plan_square, space_square, length_term, distance_term, ground_term, obstacle_term, weather_term, unless_loud, pair_over, two_walls, pair_of, farthest};
ghost use Rattle.road.specs.Pairs.{Mild};
ghost use Rattle.road.specs.Judge.{receiver_verdict};
ghost use Rattle.road.specs.Inner.{voiced_part, hear_of, share_by, added_shares, rank, earlier, joined, Modest, Moderate};

use course::{Course, Ends, Piece};
use emission::Sender;
use road::{Bar, Pair, Part, Receiver, Sent, Shares, Term, Voice};
use screen::{Point, Walls};

// How high above the road the source is, in cm.
const SOURCE_HEIGHT: u16 = 50;

// How near and how far a pair may be, as squares: 5 m and 2 km.
const NEAREST: u64 = 500 * 500;

const FARTHEST: u64 = 200000 * 200000;

// How loud, in hundredths of a dB, and as an energy.
const LOUDEST: u32 = 9000;

const MOST_SHARE: u64 = 1_000_000_000_000_000;

// The squared distance in the plan from the middle of a piece.
pub fn plan(p: Piece, r: Receiver) -> u64
    requires { (p.x ≤ coordinate) × (p.y ≤ coordinate) × (r.x ≤ coordinate) × (r.y ≤ coordinate) }
    ensures { result ≡ plan_square p r }
{
    course::plan_between(p.x, p.y, r.x, r.y)
}

// The squared distance in space, by that in the plan and the point's height.
pub fn space(q0: u64, height: u16) -> u64
    requires { (q0 ≤ 600000000000000) × (source_height ≤ height) × (height ≤ 1000) }
    ensures { result ≡ q0 + square (height - source_height) }
{
    let rise = u64::from(height - SOURCE_HEIGHT);
    q0 + rise * rise
}

// Equations 11 and 12: what the ground takes off.
pub fn ground(h: u64, r: u64) -> u32
    requires { (h ≤ 1000) × (1 ≤ r) × (r ≤ 1000000) }
    ensures { result ≡ (ground_term h r).down }
{
    let top = h * (1700 * r + 3000000);
    480u64.saturating_sub(top / (r * r)) as u32
}

// What is taken off on the way: the larger of what walls take off and the ground.
fn obstacle(h: u64, r: u64, screening: u32) -> u32
    requires { (h ≤ 1000) × (1 ≤ r) × (r ≤ 1000000) }
    ensures { result ≡ (obstacle_term h r screening).down }
{
    screening.max(ground(h, r))
}

// Equations 10 to 12 and 15: distance, air, and ground or walls, by the squared distance and its root.
pub fn way(q: u64, r: u64, h: u64, screening: u32) -> Term
    requires { (1 ≤ q) × (q ≤ farthest) × (h ≤ 1000) × (1 ≤ r) × (r ≤ 1000000) × (screening ≤ 6000) }
    ensures { result ≡ distance_term q r ⊕ obstacle_term h r screening }
{
    let down = level::lv(q) + (r / 200) as u32 + obstacle(h, r, screening);
    Term { up: 5120, down }
}

// Equation 20: what the weather takes off.
fn weather(c: u64, h: u64, near: u64) -> u32
    requires { (c ≤ 1000) × (h ≤ 1000) × (1 ≤ near) × (near ≤ 1000000) }
    ensures { result ≡ (weather_term c h near).down }
{
    let beyond = near.saturating_sub(10 * h);
    (c * beyond / near) as u32
}

// The share of a voice by a way, and by the weather of its period.
fn share(v: Voice, way: Term, c: u64, h: u64, near: u64) -> Part
    requires fits { Modest v × (way.up ≤ 100000) × (way.down ≤ 100000) }
    requires c_bound { (c ≤ 1000) × (h ≤ 1000) × (1 ≤ near) × (near ≤ 1000000) }
    ensures { result ≡ voiced_part v (way ⊕ weather_term c h near) }
{
    let Some(sent) = v else {
        return Ok(0);
    };
    let up = sent.up + way.up;
    let down = sent.down + way.down + weather(c, h, near);
    if LOUDEST + down < up {
        return Err(Bar::Loud);
    }
    Ok(level::energy_at(up, down))
}

// The three shares of a piece of road by its length's term, squared distances that are in range and what walls take off; or too loud.
fn hear(voices: [Voice; 3], length: Term, q0: u64, q: u64, h: u64, screening: u32) -> Pair
    requires fits { Moderate voices × (1 ≤ q0) × (q0 ≤ q) × (q ≤ farthest) × (h ≤ 1000) }
    requires up_bound { (length.up ≤ 20000) × (length.down ≤ 20000) × (screening ≤ 6000) }
    ensures { result ≡ hear_of voices length q0 q h screening }
{
    let (near, far) = root::roots(q0, q);
    let over = way(q, far, h, screening);
    let up = length.up + over.up;
    let down = length.down + over.down;
    let way = Term { up, down };
    let day = share(voices[0], way, 200, h, near)?;
    let evening = share(voices[1], way, 100, h, near)?;
    let night = share(voices[2], way, 0, h, near)?;
    Ok(Shares {
        day,
        evening,
        night,
    })
}

// A piece that is not cut, all of what is sent: the three shares, or the first bar.
fn alone(walls: &Walls, sent: Sent, r: Receiver) -> Pair
    requires fits { Moderate sent.voices × (receiver_verdict r ≡ Ok tt) × (sent.length ≡ length_term sent.whole.length) }
    requires x_le_coordinate { (sent.whole.x ≤ coordinate) × (sent.whole.y ≤ coordinate) × (1 ≤ sent.whole.length) × (sent.whole.length ≤ longest) }
    ensures { result ≡ pair_over (share_by walls.now sent.voices r) (two_walls walls.now r) r (sent.whole ∷ []) }
{
    let p = sent.whole;
    let q0 = plan(p, r);
    let q = space(q0, r.height);
    if q < NEAREST {
        return Err(Bar::Near);
    }
    if FARTHEST < q {
        return Err(Bar::Far);
    }
    let long = u64::from(p.length);
    if q < 4 * (long * long) {
        return Err(Bar::Long);
    }
    let middle = Point { x: p.x, y: p.y };
    let point = Point { x: r.x, y: r.y };
    let screening = screen::screened(middle, point, r.height, q0, q, walls).ok_or(Bar::Walls)?;
    let h = u64::from(r.height + SOURCE_HEIGHT);
    hear(sent.voices, sent.length, q0, q, h, screening)
}

// The shares of two parts of a road added up, or too loud.
fn added(x: Shares, y: Shares) -> Pair
    requires { Mild (Ok x) × Mild (Ok y) }
    ensures { result ≡ unless_loud (added_shares x y) }
{
    let day = x.day + y.day;
    let evening = x.evening + y.evening;
    let night = x.night + y.night;
    if MOST_SHARE < day || MOST_SHARE < evening || MOST_SHARE < night {
        return Err(Bar::Loud);
    }
    Ok(Shares {
        day,
        evening,
        night,
    })
}

// The order of the bars of a pair: those of a place, walls, loudness.
// By hand: a derived order would tell the three bars of a place apart, which are of one rank.
fn rank(bar: Bar) -> u8
    ensures { result ≡ rank bar }
{
    match bar {
        Bar::Near | Bar::Far | Bar::Long => 0,
        Bar::Walls => 1,
        Bar::Loud => 2,
    }
}

// Of the bars of two parts the one that comes first.
fn earlier(a: Bar, b: Bar) -> Bar
    ensures { result ≡ earlier a b }
{
    if rank(a) <= rank(b) { a } else { b }
}

// Two parts of a road together.
fn join(a: Pair, b: Pair) -> Pair
    requires { Mild a × Mild b }
    ensures { result ≡ joined a b }
{
    match (a, b) {
        (Ok(x), Ok(y)) => added(x, y),
        (Err(first), Err(second)) => Err(earlier(first, second)),
        (Err(why), Ok(_)) => Err(why),
        (Ok(_), Err(why)) => Err(why),
    }
}

// A road between two ends, all of which is the piece: as long as it is too long for the point it is halved, and each half is treated the
// same way.
fn along(walls: &Walls, voices: [Voice; 3], whole: Piece, e: Ends, r: Receiver) -> Pair
    requires fits { Moderate voices × (receiver_verdict r ≡ Ok tt) }
    requires mapped { Mapped e × (whole ≡ one_piece e) × (1 ≤ length_of e) × (length_of e ≤ longest) }
    ensures { result ≡ pair_over (share_by walls.now voices r) (two_walls walls.now r) r (pieces_between (λ p. space_square p r) e) }
{
    let q = space(plan(whole, r), r.height);
    if course::too_long(whole.length, q) {
        let first = course::first_half(e);
        let second = course::second_half(e);
        let (first_length, second_length) = course::lengths_of(first, second);
        let a = along(walls, voices, course::whole(first, first_length), first, r);
        let b = along(
            walls,
            voices,
            course::whole(second, second_length),
            second,
            r,
        );
        return join(a, b);
    }
    let length = emission::length(whole.length);
    alone(
        walls,
        Sent {
            voices,
            whole,
            length,
        },
        r,
    )
}

// A source that sends and a receiver among walls: the three shares, or the first bar.
pub fn pair(walls: &Walls, from: &Sender, r: Receiver) -> Pair
    requires { receiver_verdict r ≡ Ok tt }
    ensures { result ≡ pair_of walls.now from.now r }
{
    let sent = from.sent();
    match from.source().course {
        Course::Uncut(_) => alone(walls, sent, r),
        Course::Between(e) => along(walls, sent.voices, sent.whole, e, r),
    }
}
