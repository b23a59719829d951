// A number is read digit by digit: what there is of it so far goes on with each byte of its line.
// What a byte does is in specs/Reading.antt.
ghost use Rattle.std.specs.Prelude.{◌≡◌};
ghost use Rattle.longhand.specs.Reading.{with_digit, fed_by};

// What is read of a line so far: nothing, a number, or what is no number below 2^64.
// By hand: an Option or a Result has two cases, and here are three.
#[derive(Clone, Copy)]
pub enum Reading {
    Nothing,
    Number(u64),
    Wrong,
}

// The number with one digit more behind it.
fn with_digit(q: u64, byte: u8) -> Reading
    ensures { result ≡ with_digit q byte }
{
    if !byte.is_ascii_digit() {
        return Reading::Wrong;
    }
    let digit = u64::from(byte - b'0');
    let Some(tens) = q.checked_mul(10) else {
        return Reading::Wrong;
    };
    let Some(more) = tens.checked_add(digit) else {
        return Reading::Wrong;
    };
    Reading::Number(more)
}

// What is read with one byte more.
pub fn fed(reading: Reading, byte: u8) -> Reading
    ensures { result ≡ fed_by reading byte }
{
    match reading {
        Reading::Nothing => with_digit(0, byte),
        Reading::Number(q) => with_digit(q, byte),
        Reading::Wrong => Reading::Wrong,
    }
}
