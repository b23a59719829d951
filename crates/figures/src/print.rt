// How a figure is written: its name, which is a line of a list of names, and the number.
// A list of names is one text: each text that a function names costs the proof of that function a good deal.
use answer::Refusal;
use level::Loudness;
use road::Term;

// A text.
pub fn text(rt: &HostRuntime, bytes: &[u8]) {
    let _ = rt.write_all(bytes);
}

// The name k of a list, one to a line.
// Byte by byte, and a number, a refusal and the line's end each by itself: an output that fails for a while loses what it lost before.
pub fn name(rt: &HostRuntime, names: &[u8], k: usize) {
    if let Some(line) = names.split(|b| *b == b'\n').nth(k) {
        for b in line {
            text(rt, &[*b]);
        }
    }
}

// A number.
pub fn number(rt: &HostRuntime, names: &[u8], k: usize, n: u64) {
    name(rt, names, k);
    let _ = rt.print(n);
    text(rt, b"\n");
}

// A level, which may be below 0: what it adds less what it takes off.
pub fn level(rt: &HostRuntime, names: &[u8], k: usize, t: Term) {
    name(rt, names, k);
    if t.up < t.down {
        text(rt, b"-");
    }
    number(rt, b"", 0, u64::from(t.up.abs_diff(t.down)));
}

// What is heard of an energy.
pub fn heard(rt: &HostRuntime, names: &[u8], k: usize, h: Loudness) {
    match h {
        None => word(rt, names, k, b"quiet\n"),
        Some(l) => number(rt, names, k, u64::from(l)),
    }
}

// An outcome in words.
pub fn word(rt: &HostRuntime, names: &[u8], k: usize, outcome: &[u8]) {
    name(rt, names, k);
    text(rt, outcome);
}

// A refusal, by its number.
pub fn refusal(rt: &HostRuntime, names: &[u8], k: usize, why: Refusal) {
    name(rt, names, k);
    number(rt, b"refused ", 0, u64::from(answer::number(why)));
}

// A refusal, by its number and its place.
pub fn refusal_at(rt: &HostRuntime, names: &[u8], k: usize, why: Refusal) {
    word(rt, names, k, b"refused ");
    let _ = rt.print(answer::number(why));
    number(rt, b" at ", 0, u64::from(answer::place(why)));
}
