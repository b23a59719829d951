// The standing walls of a book, gathered once for a call: as they are, or as they would be with one slot changed.
ghost use Rattle.std.specs.Prelude.{◌≡◌, false, ◌<◌, get_or, set};
ghost use Rattle.std.proofs.Math.Option.{none};
ghost use Rattle.store.specs.Slots.{entry};
ghost use Rattle.store.specs.Store.{wall_count, damaged, book_of};
ghost use Rattle.ledger.specs.Lists.{present};
ghost use Rattle.ledger.specs.Ledger.{WallMayStand};

use course::Ends;
use screen::{Wall, Walls};

// What is in the room for walls before they are gathered: no wall that stands.
pub const BLANK: Wall = Wall {
    ends: Ends {
        x1: 0,
        y1: 0,
        x2: 0,
        y2: 0,
    },
    height: 0,
};

// Slot k; where it is the slot that changes, as it is to be.
fn slot_at(store: &[u8], k: usize, changes: usize, other: Option<Wall>) -> Option<Wall>
    requires { (damaged store.now ≡ false) × (k < wall_count) }
    ensures { entry result ≡ get_or (set (book_of store.now).walls changes (entry other)) k none }
{
    if k == changes {
        return other;
    }
    store::read(store, k)
}

// Gathers the standing walls as they are, and lends them.
pub fn standing<'a>(store: &[u8], room: &'a mut [Wall; store::WALLS]) -> Walls<'a>
    requires { damaged store.now ≡ false }
    ensures { result ≡ present (book_of store.now).walls }
{
    changed(store, store::WALLS, None, room)
}

// Gathers them as they would be with the wall w in slot k, or with nothing in it, and lends them.
// A clause on w, and no type for a wall that may stand: three functions of one path hand it on, and the store and the callers have plain walls.
// `n` is counted by hand: with no heap there is nothing to collect into, and a `zip` with `room.iter_mut()` tells no proof what it writes.
pub fn changed<'a>(
    store: &[u8],
    k: usize,
    w: Option<Wall>,
    room: &'a mut [Wall; store::WALLS],
) -> Walls<'a>
    requires { (damaged store.now ≡ false) × WallMayStand w }
    ensures { result ≡ present (set (book_of store.now).walls k (entry w)) }
{
    let mut n = 0;
    for i in 0..store::WALLS {
        if let Some(wall) = slot_at(store, i, k, w) {
            room[n] = wall;
            n += 1;
        }
    }
    Walls::of(&room[..n])
}
