// A job fed in pieces: its records are done one after the other to an undamaged store, and their lines handed out as far as there is room.
// No input or output here: the bytes and the room are lent. Fed any pieces, the texts together are the listing of the job (specs/Pieces.antt).
#![tactic(auto)]

ghost use Rattle.std.specs.Prelude.{◌≡◌, false, ◌++◌, ◌+◌, ◌-◌, ◌≤◌, ◌<◌, length, drop};
ghost use Rattle.store.specs.Store.{damaged};
ghost use Rattle.service.specs.Service.{done_to};
ghost use Rattle.listing.specs.Listing.{line_room, line_of};
ghost use Rattle.machine.specs.Feed.{ready, feed_of, leaves};
ghost use Rattle.machine.specs.Inner.{TextPut, Entered, part};

use listing::LINE_ROOM;
use service::Outcome;

// How a job stands: the records tried, and whether it has stopped.
// A flag and no option: both are told of a job that has stopped, too (specs/Feed.antt).
#[derive(Clone, Copy)]
pub struct State {
    pub count: u64,
    pub stopped: bool,
}

// How a feed leaves it, with the bytes used and the bytes of text handed out.
#[derive(Clone, Copy)]
pub struct Progress {
    pub count: u64,
    pub stopped: bool,
    pub used: usize,
    pub wrote: usize,
}

// What one record comes to: how far the next one is, which is 0 where there is none (`Deed` of the crate service), and where the next line goes.
#[derive(Clone, Copy)]
pub struct Entry {
    pub extent: usize,
    pub wrote: usize,
}

// The bytes of the longest record.
pub const LONGEST_RECORD: usize = 34;

// Puts the line of record n at a place, and gives the place after it.
fn put_line(out: &mut [u8], at: usize, n: u64, outcome: Outcome) -> usize
    requires { at + line_room ≤ length out.old }
    ensures { TextPut at (line_of n outcome) out.old result out.new }
{
    let wrote = listing::line(n, outcome, &mut out[at..]);
    at + wrote
}

// Does the record at a place of the bytes held, and puts its line at a place of the output.
fn enter(store: &mut [u8], held: &[u8], at: usize, n: u64, out: &mut [u8], place: usize) -> Entry
    requires { (damaged store.old ≡ false) × (at ≤ length held.now) × (place + line_room ≤ length out.old) }
    ensures { Entered place n (drop at held.now) (done_to (drop at held.now) store.old) out.old result store.new out.new }
{
    let deed = service::serve(store, &held[at..]);
    let outcome = deed.outcome;
    let extent = deed.extent;
    let wrote = put_line(out, place, n, outcome);
    Entry { extent, wrote }
}

// Whether the next record can be done: there are bytes, a line has room, and the record is surely whole.
fn ready(over: bool, size: usize, room: usize) -> bool
    ensures { result ≡ ready over size room }
{
    (0 < size) & (LINE_ROOM <= room) & (over | (LONGEST_RECORD <= size))
}

// Feeds the bytes held to a job. Where more may come, a record is done only if it is surely whole; `over` says that none will.
pub fn feed(x: State, store: &mut [u8], held: &[u8], over: bool, out: &mut [u8]) -> Progress
    requires { (damaged store.old ≡ false) × (x.count + length held.now < 18446744073709551616) }
    ensures { ((result, store.new, out.new) ≡ leaves (feed_of over x held.now store.old (length out.old)) out.old) × (damaged store.new ≡ false) }
{
    let mut used = 0;
    let mut wrote = 0;
    let mut count = x.count;
    if x.stopped {
        return Progress {
            count,
            stopped: true,
            used,
            wrote,
        };
    }
    // by hand: how far to go on is told by each record
    while ready(over, held.len() - used, out.len() - wrote) {
        count += 1;
        let entry = enter(store, held, used, count, out, wrote);
        wrote = entry.wrote;
        if entry.extent == 0 {
            let stopped = true;
            return Progress {
                count,
                stopped,
                used,
                wrote,
            };
        }
        used += entry.extent;
    }
    let stopped = false;
    Progress {
        count,
        stopped,
        used,
        wrote,
    }
}

// Moves the bytes from one place up to another to the front, where the bytes of the next piece follow them.
pub fn hold(input: &mut [u8], from: usize, to: usize)
    requires { (from ≤ to) × (to ≤ length input.old) }
    ensures { input.new ≡ part from to input.old ++ drop (to - from) input.old }
{
    input.copy_within(from..to, 0);
}
