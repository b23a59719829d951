// Whole numbers come in, one on each line, and for each goes out how its root is worked by hand, in binary (specs/Sheet.antt).
// What is read and what is written in which order no contract says; what a line means and what a sheet holds is proved.
#![tactic(auto)]

mod reading;
mod sheet;

use reading::Reading;
use std::io::Read;

// Why it does not go on.
#[derive(Clone, Copy)]
enum Fault {
    // A line is no whole number below 2^64.
    Wrong,
    // A sheet could not be written.
    Unwritten,
}

// Writes the sheet of the number that was read, if one was.
fn tell(rt: &HostRuntime, out: &mut [u8; 4096], reading: Reading) -> Result<(), Fault> {
    let Reading::Number(q) = reading else {
        return Ok(());
    };
    let n = sheet::write(q, out);
    rt.write_all(&out[..n]).map_err(|_| Fault::Unwritten)
}

// Takes one byte: a line feed ends the number, any other byte goes on with it.
fn take(
    rt: &HostRuntime,
    out: &mut [u8; 4096],
    reading: Reading,
    byte: u8,
) -> Result<Reading, Fault> {
    if byte == b'\n' {
        tell(rt, out, reading)?;
        return Ok(Reading::Nothing);
    }
    match reading::fed(reading, byte) {
        Reading::Wrong => Err(Fault::Wrong),
        more => Ok(more),
    }
}

// Takes all bytes that were read, up to the first that is wrong.
fn take_all(
    rt: &HostRuntime,
    input: &[u8],
    out: &mut [u8; 4096],
    mut reading: Reading,
) -> Result<Reading, Fault> {
    for byte in input {
        reading = take(rt, out, reading, *byte)?;
    }
    Ok(reading)
}

// Reads as much as there is room for, and takes it. At the end of the input there is nothing more to read; the last line may lack its line feed.
fn read_on(
    rt: &HostRuntime,
    input: &mut [u8],
    out: &mut [u8; 4096],
    reading: Reading,
) -> Result<Option<Reading>, Fault> {
    let n = rt.stdin().read(input).unwrap_or(0);
    if n == 0 {
        tell(rt, out, reading)?;
        return Ok(None);
    }
    let more = take_all(rt, &input[..n], out, reading)?;
    Ok(Some(more))
}

// A proved loop has to end, and nothing says that the input does: the loop counts to a number that no run comes to.
fn run(rt: &HostRuntime, input: &mut [u8], out: &mut [u8; 4096]) -> Result<(), Fault> {
    let mut reading = Reading::Nothing;
    for _ in 0..u64::MAX {
        let Some(more) = read_on(rt, input, out, reading)? else {
            return Ok(());
        };
        reading = more;
    }
    Ok(())
}

fn main(rt: HostRuntime) {
    let mut input = [0u8; 65536];
    let mut out = [0u8; 4096];
    let why = match run(&rt, &mut input, &mut out) {
        Ok(()) => return,
        Err(Fault::Wrong) => "longhand: not a whole number below 2^64",
        Err(Fault::Unwritten) => "longhand: standard output cannot be written",
    };
    let _ = rt.eprintln(why);
}
