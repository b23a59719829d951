// For the tests: a store and a record come in, the clerk's answer and the store afterwards go out; or a call and a room to write its record.
// What the clerk and the writer do is proved in `clerk` and `record`; what a frame says is in specs/; of input and output no contract speaks.
#![tactic(auto)]

mod call;
mod head;

use std::io::Read;

// Fills all of the bytes; none where the input ends before.
fn fill(rt: &HostRuntime, bytes: &mut [u8]) -> Option<()> {
    rt.stdin().read_exact(bytes).ok()
}

// Writes the head of an answer and the bytes that go with it; none where nobody takes them.
fn answer(rt: &HostRuntime, head: &[u8], bytes: &[u8]) -> Option<()> {
    rt.write_all(head).ok()?;
    rt.write_all(bytes).ok()
}

// A length of two bytes, most significant first; none where the input ends before it.
fn read_size(rt: &HostRuntime) -> Option<usize> {
    let mut bytes = [0u8; 2];
    fill(rt, &mut bytes)?;
    Some(usize::from(u16::from_be_bytes(bytes)))
}

// A frame for which there is no room is the last one.
fn too_long<T>(rt: &HostRuntime) -> Option<T> {
    let _ = rt.eprintln("probe: a frame is too long");
    None
}

// A frame on a store of n bytes, which may have 32768, and then on a record, which may have 1024.
fn store_frame(rt: &HostRuntime, n: usize) -> Option<()> {
    let mut stores = [0u8; 32768];
    let Some(store) = stores.get_mut(..n) else {
        return too_long(rt);
    };
    fill(rt, store)?;
    let size = read_size(rt)?;
    let mut records = [0u8; 1024];
    let Some(record) = records.get_mut(..size) else {
        return too_long(rt);
    };
    fill(rt, record)?;
    let deed = clerk::apply(store, record);
    answer(rt, &head::of_outcome(deed.outcome, deed.extent), store)
}

// A frame that asks for writing the record of a call, which has 48 bytes, into n bytes FF, at most 64.
// The extent is that of the part read back.
fn writing_frame(rt: &HostRuntime, n: usize) -> Option<()> {
    let mut bytes = [255u8; 64];
    let Some(room) = bytes.get_mut(..n) else {
        return too_long(rt);
    };
    let mut raw = [0u8; 48];
    fill(rt, &mut raw)?;
    let written = record::write(call::of(&raw), call::source(&raw), room);
    let extent = record::part(room).len();
    answer(rt, &head::of_written(written, extent), room)
}

// One frame. The length of the store has four bytes, of which the first two are 0; where they are 1 the frame asks for writing.
// By number: so a frame begins, and what it has to be read as follows from it.
fn frame(rt: &HostRuntime) -> Option<()> {
    let mode = read_size(rt)?;
    let n = read_size(rt)?;
    match mode {
        0 => store_frame(rt, n),
        1 => writing_frame(rt, n),
        _ => too_long(rt),
    }
}

// A proved loop has to end, and nothing says that the input does: so many turns no run uses up.
fn main(rt: HostRuntime) {
    for _ in 0..u64::MAX {
        if frame(&rt).is_none() {
            return;
        }
    }
}
