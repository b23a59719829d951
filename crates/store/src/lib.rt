// The book's state as bytes that the caller lends (docs/STORE.md): source slots, then receiver slots with their accounts, then wall slots.
// specs/Store.antt says what book stands in the bytes and what damage is; the parts here read and write one slot.
// May not change: each contract says the store's length, since the caller owns the bytes and lends them anew for each call.
// And in the crates above that it is undamaged: tried as a type, a struct round the lent bytes with a model or a ghost field, the proof didn't
// close, since of bytes that such a struct held nothing is known when it is gone, and `book` has to say what they hold.
#![tactic(auto)]

pub mod party;
mod receivers;
pub mod slot;
mod sources;
mod walls;

ghost use Rattle.std.specs.Prelude.{◌≡◌, length};
ghost use Rattle.store.specs.Store.{store_length, damaged, cleared_bytes};

use account::Account;
pub use party::{described, put, read};
use road::{Receiver, Source};
use screen::Wall;

// How many source slots, receiver slots and wall slots a book has.
pub const SOURCES: usize = 512;

pub const RECEIVERS: usize = 64;

pub const WALLS: usize = 64;

// The bytes of a slot: its mark's, those of the fields in road's tables, and a receiver's sums.
pub const SOURCE_SIZE: usize = 40;

pub const RECEIVER_SIZE: usize = 33;

pub const WALL_SIZE: usize = 15;

// The last slots, from slot 0 on.
pub const LAST_SOURCE: u16 = (SOURCES - 1) as u16;

pub const LAST_RECEIVER: u16 = (RECEIVERS - 1) as u16;

pub const LAST_WALL: u16 = (WALLS - 1) as u16;

// Where the receivers begin.
pub const SPLIT: usize = SOURCES * SOURCE_SIZE;

// And the walls.
pub const WALLS_BEGIN: usize = SPLIT + RECEIVERS * RECEIVER_SIZE;

// The bytes of a store.
pub const LENGTH: usize = WALLS_BEGIN + WALLS * WALL_SIZE;

// A receiver in use with its account.
#[derive(Clone, Copy)]
pub struct Held {
    pub who: Receiver,
    pub sums: Account,
}

// Whether the store is damaged.
pub fn damaged(store: &[u8]) -> bool
    ensures { result ≡ damaged store.now }
{
    if store.len() != LENGTH {
        return true;
    }
    party::any_torn::<Source, _>(store)
        || party::any_torn::<Held, _>(store)
        || party::any_torn::<Wall, _>(store)
}

// Makes every byte 0.
pub fn wipe(store: &mut [u8])
    requires { length store.old ≡ store_length }
    ensures { store.new ≡ cleared_bytes }
{
    store.fill(0);
}
