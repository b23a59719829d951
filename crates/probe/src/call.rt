// A call as 48 bytes: the kind, the slot (two bytes), and the fields, each as wide as its type. A daily figure stands where traffic would,
// the second end of a road or a wall where a length would, and the y of that in the last four bytes.
// So calls can be told that no record holds. A kind that is not listed is an ask.
ghost use Rattle.std.specs.Prelude.{◌≡◌, ◌+◌, ◌≤◌};
ghost use Rattle.probe.specs.Raw as spec;

use course::{Course, Ends, Piece};
use daily::Daily;
use record::{Counts, Request};
use road::{Receiver, Source, Traffic};
use screen::Wall;

fn two(raw: &[u8; 48], at: usize) -> u16
    requires { at + 2 ≤ 48 }
    ensures { result ≡ spec.two raw.now at }
{
    u16::from_be_bytes([raw[at], raw[at + 1]])
}

fn four(raw: &[u8; 48], at: usize) -> u32
    requires { at + 4 ≤ 48 }
    ensures { result ≡ spec.four raw.now at }
{
    u32::from_be_bytes([raw[at], raw[at + 1], raw[at + 2], raw[at + 3]])
}

fn traffic(raw: &[u8; 48], at: usize) -> Traffic
    requires { at + 6 ≤ 48 }
    ensures { result ≡ spec.traffic_at raw.now at }
{
    Traffic {
        m: four(raw, at),
        p: two(raw, at + 4),
    }
}

fn piece(raw: &[u8; 48]) -> Piece
    ensures { result ≡ spec.raw_piece raw.now }
{
    Piece {
        x: four(raw, 3),
        y: four(raw, 7),
        length: four(raw, 11),
    }
}

fn ends(raw: &[u8; 48]) -> Ends
    ensures { result ≡ spec.raw_ends raw.now }
{
    Ends {
        x1: four(raw, 3),
        y1: four(raw, 7),
        x2: four(raw, 11),
        y2: four(raw, 44),
    }
}

fn course(raw: &[u8; 48]) -> Course
    ensures { result ≡ spec.raw_course raw.now }
{
    if raw[0] == 7 {
        return Course::Between(ends(raw));
    }
    Course::Uncut(piece(raw))
}

pub fn source(raw: &[u8; 48]) -> Source
    ensures { result ≡ spec.raw_source raw.now }
{
    Source {
        course: course(raw),
        lanes: raw[15],
        car: raw[16],
        truck: raw[17],
        surface: raw[18],
        gradient: raw[19],
        reflection: raw[20],
        walls: raw[21],
        height: two(raw, 22),
        spacing: two(raw, 24),
        traffic: [traffic(raw, 26), traffic(raw, 32), traffic(raw, 38)],
    }
}

fn receiver(raw: &[u8; 48]) -> Receiver
    ensures { result ≡ spec.raw_receiver raw.now }
{
    Receiver {
        x: four(raw, 3),
        y: four(raw, 7),
        height: two(raw, 11),
    }
}

fn daily(raw: &[u8; 48]) -> Daily
    ensures { result ≡ spec.raw_daily raw.now }
{
    Daily {
        class: raw[26],
        dtv: four(raw, 27),
    }
}

fn wall(raw: &[u8; 48]) -> Wall
    ensures { result ≡ spec.raw_wall raw.now }
{
    Wall {
        ends: ends(raw),
        height: two(raw, 22),
    }
}

#[tactic(auto, using(crate::proofs::Laws::ask_else), unfolding(crate::specs::Raw::call_by))]
pub fn of(raw: &[u8; 48]) -> Request
    ensures { result ≡ spec.call_at raw.now }
{
    let slot = two(raw, 1);
    match raw[0] {
        1 => Request::PlaceReceiver(slot, receiver(raw)),
        2 => Request::WithdrawReceiver(slot),
        3 | 7 => Request::PlaceSource(slot, Counts::ByPeriod),
        4 => Request::WithdrawSource(slot),
        6 => Request::PlaceSource(slot, Counts::ByDay(piece(raw), daily(raw))),
        8 => Request::PlaceWall(slot, wall(raw)),
        9 => Request::WithdrawWall(slot),
        _ => Request::Ask(slot),
    }
}
