// The head of an answer, ten bytes: tag, number, place, L_DEN, L_Night, extent (specs/Head.antt).
// The last four have two bytes each, most significant first.
ghost use Rattle.std.specs.Prelude.{◌≡◌};
ghost use Rattle.probe.specs.Head as spec;

use clerk::{Outcome, Report};
use index::Index;
use record::Written;

// Quiet, and any number that two bytes do not hold; none is met.
const NONE: u16 = 65535;

fn brief(n: u64) -> u16
    ensures { result ≡ spec.brief n }
{
    u16::try_from(n).unwrap_or(NONE)
}

fn tenths(index: Index) -> u16
    ensures { result ≡ spec.tenths index }
{
    index.map_or(NONE, |n| brief(u64::from(n)))
}

fn line(tag: u8, number: u8, place: u16, den: u16, night: u16, extent: u16) -> [u8; 10]
    ensures { result ≡ spec.line tag number place den night extent }
{
    let place = place.to_be_bytes();
    let den = den.to_be_bytes();
    let night = night.to_be_bytes();
    let extent = extent.to_be_bytes();
    [
        tag, number, place[0], place[1], den[0], den[1], night[0], night[1], extent[0], extent[1],
    ]
}

pub fn of_outcome(outcome: Outcome, extent: usize) -> [u8; 10]
    ensures { result ≡ spec.of_outcome outcome (spec.brief extent) }
{
    let extent = brief(extent as u64);
    match outcome {
        Ok(Report::Done) => line(0, 0, 0, 0, 0, extent),
        Ok(Report::Levels(_, den, night)) => line(1, 0, 0, tenths(den), tenths(night), extent),
        Err(why) => line(2, answer::number(why), answer::place(why), 0, 0, extent),
    }
}

pub fn of_written(written: Written, extent: usize) -> [u8; 10]
    ensures { result ≡ spec.of_written written (spec.brief extent) }
{
    of_outcome(written.map(|()| Report::Done), extent)
}
