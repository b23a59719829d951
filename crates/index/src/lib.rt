// The two indices of a point, L_DEN and L_Night, from its three sums of energy (VBUS equation 2).
// Both are told in tenths of a dB, or as quiet where there is no level.
#![tactic(auto)]

ghost use Rattle.std.specs.Prelude.{◌≡◌, ◌+◌, ◌*◌, ◌/◌, ◌<◌, ◌≤◌};
ghost use Rattle.level.specs.Level.{top, loudness_of};
ghost use Rattle.index.specs.Index.{level_in, tenths_of, lift, lifted_of, lden_of, lnight_of};

use level::Loudness;

// An index in tenths of a dB, or none where it is quiet.
pub type Index = Option<u32>;

// A level brought to tenths, half a tenth up.
fn in_tenths(heard: Loudness) -> Index
    requires { level_in heard < 20000 }
    ensures { result ≡ tenths_of heard }
{
    heard.map(|hundredths| (hundredths + 5) / 10)
}

// The energy of a level with an addition to it; a quiet period brings nothing.
fn raised(heard: Loudness, addition: u32) -> u64
    requires { (level_in heard ≤ 11709) × (addition ≤ 1000) }
    ensures { result ≡ lift addition heard }
{
    heard.map_or(0, |hundredths| level::energy(hundredths + addition))
}

// Of a sum's level.
fn lifted(sum: u64, addition: u32) -> u64
    requires { (sum ≤ top) × (addition ≤ 1000) }
    ensures { result ≡ lifted_of addition sum }
{
    raised(level::level(sum), addition)
}

// L_Night: the level of the night's sum, which is told.
pub fn lnight(night: u64, late: Loudness) -> Index
    requires { late ≡ loudness_of night }
    ensures { result ≡ lnight_of night }
{
    in_tenths(late)
}

// L_DEN: twelve hours of day, four of evening with 5 dB more, eight of night with 10 dB more, as 3 to 1 to 2.
// The level of the night's sum is told, since L_Night wants it too.
pub fn lden(day: u64, evening: u64, night: u64, late: Loudness) -> Index
    requires { (day ≤ top) × (evening ≤ top) × (night ≤ top) × (late ≡ loudness_of night) }
    ensures { result ≡ lden_of day evening night }
{
    let a = lifted(day, 0);
    let b = lifted(evening, 500);
    let c = raised(late, 1000);
    let mean = (3 * a + b + 2 * c) / 6;
    in_tenths(level::level(mean))
}
