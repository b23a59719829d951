// The round of the receivers for a source that goes and one that comes: what each account would be, before a byte is written.
// The first pass works every share out once and keeps the seats as they would be; the second pass writes them.
ghost use Rattle.std.specs.Prelude.{◌≡◌, false, ◌<◌, Ok};
ghost use Rattle.road.specs.Judge.{receiver_verdict};
ghost use Rattle.road.specs.Reach.{pair_of};
ghost use Rattle.store.specs.Slots.{entry};
ghost use Rattle.store.specs.Store.{receiver_count, damaged, book_of, book_bytes, book};
ghost use Rattle.ledger.specs.Lists.{bar_at};
ghost use Rattle.ledger.specs.Changes.{exchange, pair_by};
ghost use Rattle.ledger.specs.Ledger.{exchanged_by, turn_of, rounded, settled, seated, SeatStands, StandingSeats};

use crate::Seat;
use account::Account;
use answer::Refusal;
use emission::Sender;
use road::{Bar, Pair, Receiver, Shares};
use screen::Walls;
use store::Held;

// What becomes of a receiver's account.
// By hand: an Option or a Result has two cases, and here are three.
#[derive(Clone, Copy)]
pub enum Turn {
    Moved(Account),
    Barred(Bar),
    Late,
}

// The refusal of a pair with the slot of the other party.
pub fn bar_at(slot: u16, bar: Bar) -> Refusal
    ensures { result ≡ bar_at slot bar }
{
    match bar {
        Bar::Near => Refusal::TooNear(slot),
        Bar::Far => Refusal::TooFar(slot),
        Bar::Long => Refusal::TooLong(slot),
        Bar::Loud => Refusal::TooLoud(slot),
        Bar::Walls => Refusal::TwoWalls(slot),
    }
}

// What somebody on a round brings to a point, and what nobody does, who is `None`.
fn heard_at(walls: &Walls, from: &Option<Sender>, r: Receiver) -> Pair
    requires { receiver_verdict r ≡ Ok tt }
    ensures { result ≡ pair_by (pair_of walls.now) (entry from.now) r }
{
    match from {
        Some(sender) => reach::pair(walls, sender, r),
        None => Ok(Shares::default()),
    }
}

// An account whose shares are exchanged for others. A pair that is barred could not have been placed.
fn exchanged(sums: Account, goes: Pair, more: Shares) -> Turn
    ensures { result ≡ exchanged_by goes more sums }
{
    match goes {
        Err(_) => Turn::Late,
        Ok(less) => {
            if !sums.covers(less) {
                return Turn::Late;
            }
            let rest = sums.minus(less);
            if !rest.room(more) {
                return Turn::Late;
            }
            let next = rest.plus(more);
            Turn::Moved(next)
        }
    }
}

// What becomes of a receiver: the source that comes is asked for first.
fn meet(walls: &Walls, x: Held, goes: &Option<Sender>, comes: &Option<Sender>) -> Turn
    requires { receiver_verdict x.who ≡ Ok tt }
    ensures { result ≡ turn_of (exchange (pair_of walls.now) (entry goes.now) (entry comes.now)) x }
{
    match heard_at(walls, comes, x.who) {
        Err(bar) => Turn::Barred(bar),
        Ok(more) => exchanged(x.sums, heard_at(walls, goes, x.who), more),
    }
}

// The first pass, among walls, from the lowest slot on.
// A bar of any receiver is told before the late 1 of another.
pub fn go_round(
    walls: &Walls,
    store: &[u8],
    goes: &Option<Sender>,
    comes: &Option<Sender>,
) -> Result<[Seat; store::RECEIVERS], Refusal>
    requires { damaged store.now ≡ false }
    ensures { result ≡ rounded (exchange (pair_of walls.now) (entry goes.now) (entry comes.now)) (book_of store.now).receivers }
{
    let mut seats = [None; store::RECEIVERS];
    let mut late = false;
    for (j, seat) in seats.iter_mut().enumerate() {
        let Some(x) = store::read::<Held, _>(store, j) else {
            continue;
        };
        match meet(walls, x, goes, comes) {
            Turn::Moved(sums) => *seat = Some(Held { who: x.who, sums }),
            Turn::Late => late = true,
            Turn::Barred(bar) => return Err(bar_at(j as u16, bar)),
        }
    }
    if late {
        return Err(Refusal::Damaged);
    }
    Ok(seats)
}

// Somebody in a seat is written into its slot; nobody leaves the slot as it was.
fn settle(store: &mut [u8], j: usize, seat: Seat)
    requires { (damaged store.old ≡ false) × (j < receiver_count) × SeatStands seat }
    ensures { store.new ≡ book_bytes (settled seat j (book_of store.old)) }
{
    if let Some(x) = seat {
        store::put(store, j, Some(x));
    }
}

// The second pass: whoever is in a seat is written.
pub fn write_seats(store: &mut [u8], seats: &[Seat; store::RECEIVERS])
    requires { (damaged store.old ≡ false) × StandingSeats seats.now }
    ensures { (damaged store.new ≡ false) × (book_of store.new ≡ book (book_of store.old).sources (seated seats.now (book_of store.old).receivers) (book_of store.old).walls) }
{
    for (k, seat) in seats.iter().enumerate() {
        settle(store, k, *seat);
    }
}
