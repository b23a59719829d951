// The way of a job through the program: input is read when less than a record is at hand, output is written piece by piece.
// All that a job means is done by the machine; here bytes come in and texts go out.
ghost use Rattle.std.specs.Prelude.{◌≡◌, false, ◌+◌, ◌-◌, ◌≤◌, ◌<◌, length, take};
ghost use Rattle.request.specs.Kinds.{longest_record};
ghost use Rattle.store.specs.Store.{damaged, store_length};
ghost use Rattle.listing.specs.Listing.{line_room};
ghost use Rattle.machine.specs.Inner.{part};
ghost use Rattle.job.specs.Job.{Follows, Advanced, Turned, Ended, Ran};

use machine::{LONGEST_RECORD, State};
use std::io::Read;

// How many turns a job may have: a number that none reaches, and that keeps the count of records below 2^63.
const TURNS: u64 = 140737488355328;

// The bytes at hand: from one place of the input to another, and whether the input is over or could not be read.
// Two places, here and in `Stand`, and no range, which could not be copied: `Follows` of specs/Job.antt speaks of both.
// Flags and no error, here and in `Last` and `End`: `Follows`, `Ended` and `Ran` of specs/Job.antt promise the rest in each case.
#[derive(Clone, Copy)]
pub struct Hand {
    pub from: usize,
    pub to: usize,
    pub over: bool,
    pub failed: bool,
}

// How the program stands after a turn: the turn had the bytes from `start` to `to`, and left those from `from` on; it handed out so
// many bytes of text; the job's state; and whether input could not be read or output not be written.
// Flags and no error: what a turn that failed leaves is promised too (`Turned` of specs/Job.antt).
#[derive(Clone, Copy)]
pub struct Stand {
    pub start: usize,
    pub from: usize,
    pub to: usize,
    pub over: bool,
    pub count: u64,
    pub stopped: bool,
    pub wrote: usize,
    pub unread: bool,
    pub unwritten: bool,
}

// The last line: its length, and whether it was written.
#[derive(Clone, Copy)]
pub struct Last {
    pub wrote: usize,
    pub told: bool,
}

// How a run ends: whether the whole listing was written, whether the input was over, the records tried, and the length of the last line.
#[derive(Clone, Copy)]
pub struct End {
    pub whole: bool,
    pub over: bool,
    pub count: u64,
    pub wrote: usize,
}

// Reads behind the first `held` bytes of the input, where there is room for a byte at least: so a read of nothing is the end.
fn fetch(rt: &HostRuntime, input: &mut [u8], held: usize) -> Hand
    requires { held < length input.old }
    ensures { Follows false (take held input.old) input.new result }
{
    let got = rt.stdin().read(&mut input[held..]);
    let failed = got.is_err();
    let more = got.unwrap_or(0);
    Hand {
        from: 0,
        to: held + more,
        over: more == 0,
        failed,
    }
}

// Makes sure that a whole record is at hand, or that the input is over.
fn refill(rt: &HostRuntime, input: &mut [u8], from: usize, to: usize, over: bool) -> Hand
    requires { (from ≤ to) × (to ≤ length input.old) × (longest_record ≤ length input.old) }
    ensures { Follows over (part from to input.old) input.new result }
{
    if over | (LONGEST_RECORD <= to - from) {
        return Hand {
            from,
            to,
            over,
            failed: false,
        };
    }
    machine::hold(input, from, to);
    fetch(rt, input, to - from)
}

// The records at hand are done, and their lines go out.
fn advance(
    rt: &HostRuntime,
    store: &mut [u8],
    input: &[u8],
    output: &mut [u8],
    hand: Hand,
    x: State,
) -> Stand
    requires { (damaged store.old ≡ false) × (hand.from ≤ hand.to) × (hand.to ≤ length input.now) × (length input.now ≤ 65536) × (x.count + 65536 < 18446744073709551616) }
    ensures { Advanced hand x input.now store.old result store.new output.new }
{
    let from = hand.from;
    let to = hand.to;
    let p = machine::feed(x, store, &input[from..to], hand.over, output);
    let wrote = p.wrote;
    let told = rt.write_all(&output[..wrote]).is_ok();
    let next = from + p.used;
    Stand {
        start: from,
        from: next,
        to,
        over: hand.over,
        count: p.count,
        stopped: p.stopped,
        wrote,
        unread: false,
        unwritten: !told,
    }
}

// One turn: bytes are fetched where they are wanted, and the records at hand are done. Where no byte can be read, none is.
fn turn(rt: &HostRuntime, store: &mut [u8], input: &mut [u8], output: &mut [u8], s: Stand) -> Stand
    requires { (damaged store.old ≡ false) × (s.from ≤ s.to) × (s.to ≤ length input.old) × (longest_record ≤ length input.old) × (length input.old ≤ 65536) × (s.count + 65536 < 18446744073709551616) }
    ensures { Turned s input.old store.old result input.new store.new output.new }
{
    let hand = refill(rt, input, s.from, s.to, s.over);
    if hand.failed {
        return Stand {
            start: hand.from,
            from: hand.from,
            to: hand.to,
            over: hand.over,
            count: s.count,
            stopped: s.stopped,
            wrote: 0,
            unread: true,
            unwritten: false,
        };
    }
    let x = State {
        count: s.count,
        stopped: s.stopped,
    };
    advance(rt, store, input, output, hand, x)
}

// Why a listing is not whole.
#[derive(Clone, Copy)]
enum Fault {
    Unread,
    Unwritten,
    Endless,
}

// Why the turns of a job came to no end: no turn fails twice.
fn fault_of(s: Stand) -> Fault {
    match s {
        Stand { unread: true, .. } => Fault::Unread,
        Stand {
            unwritten: true,
            ..
        } => Fault::Unwritten,
        _ => Fault::Endless,
    }
}

// Says on standard error what went wrong.
fn complain(rt: &HostRuntime, fault: Fault) {
    let _ = rt.eprintln(match fault {
        Fault::Unread => "job: standard input cannot be read",
        Fault::Unwritten => "job: standard output cannot be written",
        Fault::Endless => "job: the job is too long",
    });
}

// The last line.
fn finish(rt: &HostRuntime, output: &mut [u8], count: u64) -> Last
    requires { line_room ≤ length output.old }
    ensures { Ended count result output.new }
{
    let wrote = listing::end_line(count, output);
    let told = rt.write_all(&output[..wrote]).is_ok();
    if !told {
        complain(rt, Fault::Unwritten);
    }
    Last { wrote, told }
}

// Runs a job, from a cleared store to the last line.
pub fn run(rt: &HostRuntime, store: &mut [u8], input: &mut [u8], output: &mut [u8]) -> End
    requires { (length store.old ≡ store_length) × (longest_record ≤ length input.old) × (length input.old ≤ 65536) × (line_room ≤ length output.old) }
    ensures { Ran result store.new output.new }
{
    let _ = book::clear(store);
    let mut s = Stand {
        start: 0,
        from: 0,
        to: 0,
        over: false,
        count: 0,
        stopped: false,
        wrote: 0,
        unread: false,
        unwritten: false,
    };
    for _ in 0..TURNS {
        if s.unread | s.unwritten {
            break;
        }
        if s.stopped | (s.over & (s.from == s.to)) {
            let last = finish(rt, output, s.count);
            return End {
                whole: last.told,
                over: s.over,
                count: s.count,
                wrote: last.wrote,
            };
        }
        s = turn(rt, store, input, output, s);
    }
    complain(rt, fault_of(s));
    End {
        whole: false,
        over: s.over,
        count: s.count,
        wrote: 0,
    }
}
