// Why a call is refused: one case for each row of METHOD 9's table of numbers.
// The number and the place that a caller is told are those of specs/Table.antt.
#![tactic(auto)]

ghost use Rattle.std.specs.Prelude.{◌≡◌};
ghost use Rattle.answer.specs.Table.{number_of, place_of};

#[derive(Clone, Copy)]
pub enum Refusal {
    // the store is damaged
    Damaged,
    // the bytes end inside a record
    CutShort,
    // no such kind of record
    UnknownKind,
    // a bit that is left over is set
    Leftover,
    // the first field that is not allowed
    Field(u16),
    // a surface for more than 60 km/h on a slower road
    SlowSurface,
    // a truck that is quieter than a car
    QuietTruck,
    // the slot is in use
    Taken,
    // the slot is not in use
    Vacant,
    // the pair with this slot is too near, too far, too long for its distance, too loud, or has two walls between it
    TooNear(u16),
    TooFar(u16),
    TooLong(u16),
    TooLoud(u16),
    TwoWalls(u16),
}

// The number of a refusal.
pub fn number(r: Refusal) -> u8
    ensures { result ≡ number_of r }
{
    match r {
        Refusal::Damaged => 1,
        Refusal::CutShort => 2,
        Refusal::UnknownKind => 3,
        Refusal::Leftover => 4,
        Refusal::Field(_) => 5,
        Refusal::SlowSurface => 6,
        Refusal::QuietTruck => 7,
        Refusal::Taken => 8,
        Refusal::Vacant => 9,
        Refusal::TooNear(_) => 10,
        Refusal::TooFar(_) => 11,
        Refusal::TooLong(_) => 12,
        Refusal::TooLoud(_) => 13,
        Refusal::TwoWalls(_) => 14,
    }
}

// The place of a refusal: a field's number, a slot, or 0.
pub fn place(r: Refusal) -> u16
    ensures { result ≡ place_of r }
{
    match r {
        Refusal::Field(field) => field,
        Refusal::TooNear(slot)
        | Refusal::TooFar(slot)
        | Refusal::TooLong(slot)
        | Refusal::TooLoud(slot)
        | Refusal::TwoWalls(slot) => slot,
        _ => 0,
    }
}
