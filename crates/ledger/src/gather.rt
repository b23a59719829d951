// What all standing sources bring to a receiver: three sums, or the first source that is barred.
// What a road sends out is worked out once for each source.
ghost use Rattle.std.specs.Prelude.{◌≡◌, false, ◌<◌, get_or, Ok};
ghost use Rattle.std.proofs.Math.Option.{none};
ghost use Rattle.road.specs.Reach.{pair_of};
ghost use Rattle.road.specs.Judge.{receiver_verdict};
ghost use Rattle.store.specs.Store.{source_count, damaged, book_of};
ghost use Rattle.ledger.specs.Ledger.{offer_of, gathered};

use crate::round;
use account::Account;
use answer::Refusal;
use road::{Pair, Receiver, Source};
use screen::Walls;

// What the source in a slot brings to a receiver, if there is one.
fn hear_source(walls: &Walls, store: &[u8], i: usize, r: Receiver) -> Option<Pair>
    requires { (damaged store.now ≡ false) × (i < source_count) × (receiver_verdict r ≡ Ok tt) }
    ensures { result ≡ offer_of (pair_of walls.now) r (get_or (book_of store.now).sources i none) }
{
    let s: Source = store::read(store, i)?;
    let sender = emission::sends(s);
    Some(reach::pair(walls, &sender, r))
}

// What all standing sources bring to a receiver among walls, from the lowest slot on.
pub fn gather(walls: &Walls, store: &[u8], r: Receiver) -> Result<Account, Refusal>
    requires { (damaged store.now ≡ false) × (receiver_verdict r ≡ Ok tt) }
    ensures { result ≡ gathered (pair_of walls.now) r (book_of store.now).sources }
{
    let mut sums = Account::default();
    for i in 0..store::SOURCES {
        match hear_source(walls, store, i, r) {
            Some(Ok(shares)) => sums = sums.plus(shares),
            Some(Err(bar)) => return Err(round::bar_at(i as u16, bar)),
            None => {}
        }
    }
    Ok(sums)
}
