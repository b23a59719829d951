// What a road gives out (VBUS section 3.5), worked out once for a source, whatever the points are.
// The terms are those of road/specs/Emission.antt, one function for each.
#![tactic(auto)]

ghost use Rattle.std.specs.Prelude.{◌≡◌, ◌+◌, ◌-◌, ◌*◌, ◌<◌, ◌≤◌, min, Ok};
ghost use Rattle.road.specs.Emission.{traffic_term, car_speed, truck_speed, car_level, truck_level, surface_column, surface_term, gradient_term, reflection_term};
ghost use Rattle.road.specs.Reach.{length_term, walls_term};
ghost use Rattle.road.specs.Limits.{longest, last_surface, last_reflection, most_vehicles, all_trucks};
ghost use Rattle.road.specs.Judge.{source_verdict};
ghost use Rattle.road.specs.Inner.{pace_of, speed_by, steady_term, voice_by, voices_of, sent_of};

use road::{Pace, Sent, Source, Term, Traffic, Voice};
use std::marker::Model;

// A source that sends: what it sends is worked out once, for all points.
// The source is allowed, and what is sent is what it sends.
#[derive(Clone, Copy)]
pub struct Sender {
    sent: Sent,
    source: Source,
}

impl Model for Sender {
    ghost use Rattle.std.specs.Prelude.{◌≡◌, Ok};
    ghost use Rattle.std.proofs.Math.Path.{sym};
    ghost use Rattle.road.specs.declared.Source.{Source};
    ghost use Rattle.road.specs.Judge.{source_verdict};
    ghost use Rattle.road.specs.Inner.{sent_of};

    ghost Value = { Source };

    ghost view = { λ p. p.source };

    ghost invariant = { λ p. (source_verdict p.source ≡ Ok tt) × (p.sent ≡ sent_of p.source) };

    // What it sends is the source's, so that a source alone gives a sender back, which is copied.
    ghost inverse = { λ s. record { sent = sent_of s; source = s } };

    ghost inverse_ok = { λ p h i. record { sent = sym h.1 i; source = p.source } };
}

// How many surfaces and how many codes of reflection there are.
pub const SURFACES: usize = 9;

pub const REFLECTIONS: usize = 5;

// The gradient's sign, of a road that falls: the field's top bit.
pub const SIGN: u8 = 128;

// Table 3: hundredths of a dB by surface, for speeds below 40, from 40 on and from 50 on.
static SURFACE: [[u32; 3]; SURFACES] = [
    [0, 0, 0],
    [100, 150, 200],
    [200, 250, 300],
    [300, 450, 600],
    [0, 0, 100],
    [0, 0, 200],
    [0, 0, 200],
    [0, 0, 400],
    [0, 0, 500],
];

// Table 7: what a reflection takes off, by its code.
static REFLECTION: [u32; REFLECTIONS] = [0, 100, 200, 400, 800];

// Equation 8: the level at 25 m, of all the traffic or of half of it.
pub fn traffic(lanes: u8, t: Traffic) -> Term
    requires { (1 ≤ t.m) × (t.m ≤ most_vehicles) × (t.p ≤ all_trucks) }
    ensures { result ≡ traffic_term lanes t }
{
    let weight = 10000 + 82 * u64::from(t.p);
    let vehicles = u64::from(t.m) * weight;
    if lanes == 1 {
        let half = 3730 + level::lv(5 * vehicles);
        Term {
            up: half,
            down: 8000,
        }
    } else {
        let whole = 3730 + level::lv(vehicles);
        Term {
            up: whole,
            down: 7000,
        }
    }
}

// The speed of cars, brought into range.
pub fn car_speed(written: u8) -> u64
    ensures { result ≡ car_speed written }
{
    u64::from(written).clamp(30, 130)
}

// The speed of trucks, brought into range.
pub fn truck_speed(written: u8) -> u64
    ensures { result ≡ truck_speed written }
{
    u64::from(written).clamp(30, 80)
}

// One car an hour.
pub fn car_level(v: u64) -> u32
    requires { v ≤ 130 }
    ensures { result ≡ car_level v }
{
    let square = v * v;
    let cube = square * v;
    2770 + level::lv(1000000 + 8 * cube) - 6000
}

// One truck an hour.
pub fn truck_level(u: u64) -> u32
    requires { (1 ≤ u) × (u ≤ 80) }
    ensures { result ≡ truck_level u }
{
    let square = u * u;
    let cube = square * u;
    let fourth = cube * u;
    let fifth = fourth * u;
    2310 + level::lv(fifth) / 4
}

// What speed gives, for every p.
pub fn pace_of(s: Source) -> Pace
    requires { source_verdict s ≡ Ok tt }
    ensures { result ≡ pace_of s }
{
    let car = car_level(car_speed(s.car));
    let truck = truck_level(truck_speed(s.truck));
    let gain = level::energy(truck - car) - 1000000;
    Pace { car, gain }
}

// Equation 9: speed.
pub fn speed(pace: Pace, p: u16) -> Term
    requires { (pace.car ≤ 20000) × (pace.gain < 1000000000) × (p ≤ all_trucks) }
    ensures { result ≡ speed_by pace p }
{
    let trucks = u64::from(p);
    let more = pace.gain * trucks;
    let up = pace.car + level::lv(1000000000 + more);
    let down = 3730 + level::lv(100000 + 823 * trucks) + 4000;
    Term { up, down }
}

// The column of table 3 for a speed.
fn column(v: u64) -> usize
    ensures { (result ≡ surface_column v) × (result < 3) }
{
    match v {
        0..=39 => 0,
        40..=49 => 1,
        _ => 2,
    }
}

// Table 3: surface.
fn surface(kind: u8, v: u64) -> Term
    requires { (1 ≤ kind) × (kind ≤ last_surface) }
    ensures { result ≡ surface_term kind v }
{
    let at = column(v);
    let entry = SURFACE[usize::from(kind - 1)][at];
    if kind <= 5 {
        Term { up: entry, down: 0 }
    } else {
        Term { up: 0, down: entry }
    }
}

// Section 3.5.4: gradient.
#[tactic(auto, unfolding(road::specs::Emission::gradient_term))]
pub fn gradient(g: u8) -> u32
    ensures { result ≡ (gradient_term g).up }
{
    let steep = u32::from(g % SIGN);
    6 * steep.saturating_sub(50)
}

// Table 7: reflection.
fn reflection(code: u8) -> u32
    requires { code ≤ last_reflection }
    ensures { result ≡ (reflection_term code).down }
{
    REFLECTION[usize::from(code)]
}

// Equations 13 and 14: parallel walls.
pub fn walls(kind: u8, height: u16, spacing: u16) -> u32
    requires { (kind ≡ 0 → ⊥) → 1 ≤ spacing }
    ensures { result ≡ (walls_term kind height spacing).up }
{
    let high = u32::from(height);
    let wide = u32::from(spacing);
    match kind {
        1 => (400 * high / wide).min(320),
        2 => (200 * high / wide).min(160),
        _ => 0,
    }
}

// The terms that are the same in every period, at every point and for every piece of the road.
fn steady_of(s: Source) -> Term
    requires { source_verdict s ≡ Ok tt }
    ensures { result ≡ steady_term s }
{
    let on = surface(s.surface, car_speed(s.car));
    let up = on.up + gradient(s.gradient) + walls(s.walls, s.height, s.spacing);
    let down = on.down + reflection(s.reflection);
    Term { up, down }
}

// Section 3.4: what a length adds.
pub fn length(l: u32) -> Term
    requires { (1 ≤ l) × (l ≤ longest) }
    ensures { result ≡ length_term l }
{
    Term {
        up: level::lv(u64::from(l)),
        down: 2000,
    }
}

// What a metre of a source sends out in one period.
fn voice(lanes: u8, pace: Pace, steady: Term, t: Traffic) -> Voice
    requires fits { (pace.car ≤ 20000) × (pace.gain < 1000000000) × (t.m ≤ most_vehicles) × (t.p ≤ all_trucks) }
    requires up_bound { (steady.up ≤ 20000) × (steady.down ≤ 20000) }
    ensures { result ≡ voice_by lanes pace steady t }
{
    let silent = t.m == 0;
    if silent {
        return None;
    }
    let at_25 = traffic(lanes, t);
    let by_speed = speed(pace, t.p);
    let up = at_25.up + by_speed.up + steady.up;
    let down = at_25.down + by_speed.down + steady.down;
    Some(Term { up, down })
}

// What a metre of a source sends out by day, in the evening and at night.
fn voices(s: Source) -> [Voice; 3]
    requires { source_verdict s ≡ Ok tt }
    ensures { result ≡ voices_of s }
{
    let pace = pace_of(s);
    let steady = steady_of(s);
    let [day, evening, night] = s.traffic;
    [
        voice(s.lanes, pace, steady, day),
        voice(s.lanes, pace, steady, evening),
        voice(s.lanes, pace, steady, night),
    ]
}

// What a source sends out, worked out once for all points.
pub fn send(s: Source) -> Sent
    requires { source_verdict s ≡ Ok tt }
    ensures { result ≡ sent_of s }
{
    let voices = voices(s);
    let whole = course::whole_of(s.course);
    let length = length(whole.length);
    Sent {
        voices,
        whole,
        length,
    }
}

// A source that is allowed, with what it sends.
pub fn sends(s: Source) -> Sender
    requires { source_verdict s ≡ Ok tt }
    ensures { result ≡ s }
{
    let sent = send(s);
    Sender { sent, source: s }
}

impl Sender {
    // The source, which is allowed.
    pub fn source(&self) -> Source
        ensures { (result ≡ self.now) × (source_verdict self.now ≡ Ok tt) }
    {
        self.source
    }

    // What it sends.
    pub fn sent(&self) -> Sent
        ensures { result ≡ sent_of self.now }
    {
        self.sent
    }
}
