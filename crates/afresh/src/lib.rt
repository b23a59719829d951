// Every account worked out afresh, for walls that are others: each source is read and sends once, and is heard at every receiver.
// What becomes of the accounts is told as a round, which no byte is written in.
#![tactic(auto)]

ghost use Rattle.std.specs.Prelude.{◌≡◌, false, map, ◌<◌, get_or, length, Ok};
ghost use Rattle.std.proofs.Math.Option.{none};
ghost use Rattle.road.specs.Reach.{pair_of};
ghost use Rattle.store.specs.Slots.{entry};
ghost use Rattle.store.specs.Store.{source_count, receiver_count, damaged, book_of};
ghost use Rattle.ledger.specs.Lists.{present};
ghost use Rattle.ledger.specs.Changes.{renewing};
ghost use Rattle.ledger.specs.Ledger.{begun, heard_from, heard_at, heard_all, Ready, AllReady, first_block, unless_stopped, rounded};

use account::Account;
use answer::Refusal;
use emission::Sender;
use ledger::{Seat, Tally, round};
use road::Source;
use screen::Walls;
use store::Held;

// A seat before any source was heard.
fn begin(seat: Seat) -> Tally
    ensures { result ≡ begun (entry seat) }
{
    let seat = seat.map(|x| Held {
        who: x.who,
        sums: Account::default(),
    });
    Tally { seat, block: None }
}

// All receivers before any source was heard.
fn begin_all(store: &[u8]) -> [Tally; store::RECEIVERS]
    requires { damaged store.now ≡ false }
    ensures { result ≡ map begun (book_of store.now).receivers }
{
    let mut tallies = [begin(None); store::RECEIVERS];
    for (j, t) in tallies.iter_mut().enumerate() {
        *t = begin(store::read(store, j));
    }
    tallies
}

// A receiver with one source more: it has its shares, or is barred there, and the first bar stays.
fn hear(walls: &Walls, from: &Sender, t: &mut Tally)
    requires { Ready t.old.seat }
    ensures { t.new ≡ heard_from (pair_of walls.now) from.now t.old }
{
    let Some(x) = t.seat else {
        return;
    };
    match reach::pair(walls, from, x.who) {
        Ok(shares) => {
            let sums = x.sums.plus(shares);
            t.seat = Some(Held { who: x.who, sums });
        }
        Err(bar) => t.block = t.block.or(Some(bar)),
    }
}

// All receivers with one source more.
fn hear_all(walls: &Walls, from: &Sender, tallies: &mut [Tally; store::RECEIVERS])
    requires { AllReady tallies.old }
    ensures { tallies.new ≡ map (heard_from (pair_of walls.now) from.now) tallies.old }
{
    for t in tallies.iter_mut() {
        hear(walls, from, t);
    }
}

// All receivers with the source of a slot more.
fn hear_slot(walls: &Walls, store: &[u8], i: usize, tallies: &mut [Tally; store::RECEIVERS])
    requires { (damaged store.now ≡ false) × (i < source_count) × AllReady tallies.old }
    ensures { tallies.new ≡ heard_at (pair_of walls.now) (get_or (book_of store.now).sources i none) tallies.old }
{
    let Some(s) = store::read::<Source, _>(store, i) else {
        return;
    };
    let sender = emission::sends(s);
    hear_all(walls, &sender, tallies);
}

// All receivers with all sources.
fn reckon(walls: &Walls, store: &[u8]) -> [Tally; store::RECEIVERS]
    requires { (damaged store.now ≡ false) }
    ensures { result ≡ map (λ o. heard_all (pair_of walls.now) (present (book_of store.now).sources) (begun o)) (book_of store.now).receivers }
{
    let mut tallies = begin_all(store);
    for i in 0..store::SOURCES {
        hear_slot(walls, store, i, &mut tallies);
    }
    tallies
}

// The first receiver that is blocked stops it.
fn first_block(tallies: &[Tally; store::RECEIVERS]) -> Result<(), Refusal>
    requires { length tallies.now ≡ receiver_count }
    ensures { result ≡ unless_stopped (first_block 0 tallies.now) (Ok tt) }
{
    for (j, t) in tallies.iter().enumerate() {
        if let Some(why) = t.block {
            return Err(round::bar_at(j as u16, why));
        }
    }
    Ok(())
}

// The seats with their sums.
// By hand: `tallies.map(..)` keeps the tallies a second time, and calls from C have little stack; tried as `seats.iter_mut().zip(tallies)`,
// the proof didn't close, since a zip tells nothing of what is written through it.
fn seats_of(tallies: &[Tally; store::RECEIVERS]) -> [Seat; store::RECEIVERS]
    requires { length tallies.now ≡ receiver_count }
    ensures { result ≡ map (λ t. t.seat) tallies.now }
{
    let mut seats = [None; store::RECEIVERS];
    for (j, seat) in seats.iter_mut().enumerate() {
        *seat = tallies[j].seat;
    }
    seats
}

// Every account afresh, among walls: the first bar, or the seats as they would be.
// Apart from its caller, so that both need less stack.
#[inline(never)]
pub fn go_afresh(walls: &Walls, store: &[u8]) -> Result<[Seat; store::RECEIVERS], Refusal>
    requires { (damaged store.now ≡ false) }
    ensures { result ≡ rounded (renewing (pair_of walls.now) (present (book_of store.now).sources)) (book_of store.now).receivers }
{
    let tallies = reckon(walls, store);
    first_block(&tallies)?;
    Ok(seats_of(&tallies))
}
