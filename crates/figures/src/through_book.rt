// The 25 m case and its limits through the calls of the book, on a store that was cleared.
// The point is receiver 5; a refusal is written by its number and its place.
use crate::{cases, print};
use book::{Answer, Reply};
use index::Index;

// An index, in tenths of a dB, and what it is called.
fn tenths(rt: &HostRuntime, names: &[u8], k: usize, called: &[u8], i: Index) {
    print::name(rt, names, k);
    match i {
        None => print::text(rt, b"quiet\n"),
        Some(n) => print::number(rt, called, 0, u64::from(n)),
    }
}

// What a call answered.
fn told(rt: &HostRuntime, names: &[u8], k: usize, a: Answer) {
    match a {
        Ok(Reply::Done) => print::word(rt, names, k, b"accepted\n"),
        Ok(Reply::Levels(den, night)) => {
            tenths(rt, names, k, b"L_DEN \n", den);
            tenths(rt, names, k, b"L_Night \n", night);
        }
        Err(why) => print::refusal_at(rt, names, k, why),
    }
}

// A road placed into a slot.
fn place(
    rt: &HostRuntime,
    store: &mut [u8],
    names: &[u8],
    k: usize,
    slot: u16,
    x: u32,
    length: u32,
) {
    told(
        rt,
        names,
        k,
        book::place_source(store, slot, cases::street(x, length)),
    );
}

// The point, and the road once.
fn once(rt: &HostRuntime, store: &mut [u8], names: &[u8]) {
    told(rt, names, 0, book::clear(store));
    told(rt, names, 1, book::place_receiver(store, 5, cases::point()));
    place(rt, store, names, 2, 0, 102500, 1000);
    told(rt, names, 3, book::ask(store, 5));
}

// The same road a second time, and taken out again: it leaves nothing behind.
fn twice(rt: &HostRuntime, store: &mut [u8], names: &[u8]) {
    place(rt, store, names, 0, 1, 102500, 1000);
    told(rt, names, 1, book::ask(store, 5));
    told(rt, names, 2, book::withdraw_source(store, 1));
    told(rt, names, 3, book::ask(store, 5));
}

// Into the road's slot the same road 100 m away, then one that is refused, then the first one again: the latest that was accepted stands.
fn in_place(rt: &HostRuntime, store: &mut [u8], names: &[u8]) {
    place(rt, store, names, 0, 0, 110000, 1000);
    told(rt, names, 1, book::ask(store, 5));
    place(rt, store, names, 2, 0, 100357, 1000);
    told(rt, names, 3, book::ask(store, 5));
    place(rt, store, names, 4, 0, 102500, 1000);
    told(rt, names, 5, book::ask(store, 5));
}

// The longest piece at 25 m, and the nearest road, beside the road that stands.
fn limits(rt: &HostRuntime, store: &mut [u8], names: &[u8]) {
    place(rt, store, names, 0, 2, 102500, 1262);
    place(rt, store, names, 1, 3, 102500, 1263);
    place(rt, store, names, 2, 3, 100357, 1000);
    place(rt, store, names, 3, 3, 100358, 100);
}

// A slot that is not used.
fn slots(rt: &HostRuntime, store: &mut [u8], names: &[u8]) {
    told(rt, names, 0, book::ask(store, 6));
}

// All of them.
pub fn all(rt: &HostRuntime) {
    let mut store = [0u8; store::LENGTH];
    once(
        rt,
        &mut store,
        b"book, clear: \nbook, receiver 5: \nbook, source 0: \n25 m, in the book: \n",
    );
    twice(
        rt,
        &mut store,
        b"book, source 1: \n25 m, twice, in the book: \nbook, source 1 out: \n25 m, once again, in the book: \n",
    );
    in_place(
        rt,
        &mut store,
        b"book, source 0 at 100 m: \n100 m, in the book: \nbook, source 0 at dx 357: \n100 m still, in the book: \nbook, source 0 at 25 m: \n25 m, in the book: \n",
    );
    limits(
        rt,
        &mut store,
        b"book, 25 m, l 1262: \nbook, 25 m, l 1263: \nbook, dx 357: \nbook, dx 358, l 100: \n",
    );
    slots(rt, &mut store, b"book, ask 6: \n");
}
