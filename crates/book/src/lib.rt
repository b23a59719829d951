// The book: sources, receivers and noise walls in a store that the caller lends, and the calls on it.
// What each call answers and leaves, for every store, is a definition of calls/specs/Calls.antt; no call here requires anything.
#![tactic(auto)]

ghost use Rattle.std.specs.Prelude.{◌≡◌, cond};
ghost use Rattle.answer.specs.declared.Refusal.TheVariants.{Damaged};
ghost use Rattle.store.specs.Store.{damaged};
ghost use Rattle.calls.specs.Calls.{on_store, clear_store, place_source, withdraw_source, place_receiver, withdraw_receiver, place_wall, withdraw_wall, ask_receiver};

use answer::Refusal;
pub use calls::{Answer, Reply};
use road::{Receiver, Source};
use screen::Wall;

// Damage, which is looked for before all else, is refused.
fn sound(store: &[u8]) -> Result<(), Refusal>
    ensures { result ≡ cond (damaged store.now) (Err Damaged) (Ok tt) }
{
    if store::damaged(store) {
        return Err(Refusal::Damaged);
    }
    Ok(())
}

// Makes a store of the right length a book with nothing in it.
pub fn clear(store: &mut [u8]) -> Answer
    ensures { (result, store.new) ≡ clear_store store.old }
{
    let unfit = store.len() != store::LENGTH;
    if unfit {
        return Err(Refusal::Damaged);
    }
    store::wipe(store);
    Ok(Reply::Done)
}

// Places a source: its shares are added to every receiver, and those of the source in the slot, if there is one, are taken off.
pub fn place_source(store: &mut [u8], slot: u16, s: Source) -> Answer
    ensures { (result, store.new) ≡ on_store (place_source slot s) store.old }
{
    sound(store)?;
    undamaged::place_source(store, slot, s)
}

// Withdraws a source and takes its shares off every receiver.
pub fn withdraw_source(store: &mut [u8], slot: u16) -> Answer
    ensures { (result, store.new) ≡ on_store (withdraw_source slot) store.old }
{
    sound(store)?;
    undamaged::withdraw_source(store, slot)
}

// Places a receiver, with the shares of all standing sources. Whoever was in the slot goes.
pub fn place_receiver(store: &mut [u8], slot: u16, r: Receiver) -> Answer
    ensures { (result, store.new) ≡ on_store (place_receiver slot r) store.old }
{
    sound(store)?;
    undamaged::place_receiver(store, slot, r)
}

// Withdraws a receiver.
pub fn withdraw_receiver(store: &mut [u8], slot: u16) -> Answer
    ensures { (result, store.new) ≡ on_store (withdraw_receiver slot) store.old }
{
    sound(store)?;
    undamaged::withdraw_receiver(store, slot)
}

// Places a noise wall, and works every account out afresh. Whoever was in the slot goes.
pub fn place_wall(store: &mut [u8], slot: u16, w: Wall) -> Answer
    ensures { (result, store.new) ≡ on_store (place_wall slot w) store.old }
{
    sound(store)?;
    undamaged::place_wall(store, slot, w)
}

// Withdraws a noise wall and works every account out afresh.
pub fn withdraw_wall(store: &mut [u8], slot: u16) -> Answer
    ensures { (result, store.new) ≡ on_store (withdraw_wall slot) store.old }
{
    sound(store)?;
    undamaged::withdraw_wall(store, slot)
}

// Asks a receiver for its two indices.
pub fn ask(store: &[u8], slot: u16) -> Answer
    ensures { (result, store.now) ≡ on_store (ask_receiver slot) store.now }
{
    sound(store)?;
    undamaged::ask(store, slot)
}
