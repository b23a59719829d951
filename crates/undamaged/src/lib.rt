// The calls of the book on a store that is known to be undamaged: no look for damage.
// What each answers and leaves is a definition of calls/specs/Calls.antt; the store stays undamaged, so that the next call can follow.
#![tactic(auto)]

ghost use Rattle.std.specs.Prelude.{◌≡◌, false, ◌<◌, get_or, set, Ok};
ghost use Rattle.std.proofs.Math.Option.{none, some};
ghost use Rattle.road.specs.Judge.{source_verdict, receiver_verdict};
ghost use Rattle.store.specs.Slots.{entry};
ghost use Rattle.store.specs.Store.{source_count, receiver_count, wall_count, damaged, book_of, book_bytes, book};
ghost use Rattle.ledger.specs.Ledger.{WallMayStand};
ghost use Rattle.calls.specs.Calls.{told, change_source, leave_source, change_receiver, leave_receiver, change_wall, leave_wall, indices_at, place_source, withdraw_source, place_receiver, withdraw_receiver, place_wall, withdraw_wall, ask_receiver};

use answer::Refusal;
use calls::{Answer, Reply};
use emission::Sender;
use ledger::{fences, gather, round};
use road::{Receiver, Source};
use screen::Wall;
use store::Held;

// Somebody goes from source slot i and somebody comes: every receiver is asked first, and only then is anything written.
fn change_source(store: &mut [u8], i: usize, goes: Option<Sender>, comes: Option<Sender>) -> Answer
    requires { (damaged store.old ≡ false) × (i < source_count) × (entry goes ≡ get_or (book_of store.old).sources i none) }
    ensures { (result, store.new) ≡ told store.old (change_source i (entry comes) (book_of store.old)) }
{
    let mut room = [fences::BLANK; store::WALLS];
    let walls = fences::standing(store, &mut room);
    let seats = round::go_round(&walls, store, &goes, &comes)?;
    round::write_seats(store, &seats);
    write_source(store, i, comes);
    Ok(Reply::Done)
}

// Writes who comes into slot i, or makes the slot free.
fn write_source(store: &mut [u8], i: usize, comes: Option<Sender>)
    requires { (damaged store.old ≡ false) × (i < source_count) }
    ensures { store.new ≡ book_bytes (book (set (book_of store.old).sources i (entry comes)) (book_of store.old).receivers (book_of store.old).walls) }
{
    match comes {
        Some(sender) => store::put(store, i, Some(sender.source())),
        None => store::put::<Source, _>(store, i, None),
    }
}

// Places a source whose fields and slot are allowed: whoever is in the slot goes.
fn enter_source(store: &mut [u8], i: usize, s: Source) -> Answer
    requires { (damaged store.old ≡ false) × (i < source_count) × (source_verdict s ≡ Ok tt) }
    ensures { (result, store.new) ≡ told store.old (change_source i (some s) (book_of store.old)) }
{
    let goes = store::read(store, i).map(emission::sends);
    let comes = emission::sends(s);
    change_source(store, i, goes, Some(comes))
}

// Places a source.
pub fn place_source(store: &mut [u8], slot: u16, s: Source) -> Answer
    requires { damaged store.old ≡ false }
    ensures { ((result, store.new) ≡ told store.old (place_source slot s (book_of store.old))) × (damaged store.new ≡ false) }
{
    judge::judge_slot(store::LAST_SOURCE, slot)?;
    judge::judge_source(s)?;
    enter_source(store, usize::from(slot), s)
}

// Withdraws the source of a slot that is allowed.
fn leave_source(store: &mut [u8], i: usize) -> Answer
    requires { (damaged store.old ≡ false) × (i < source_count) }
    ensures { (result, store.new) ≡ told store.old (leave_source i (book_of store.old)) }
{
    let s = store::read(store, i).ok_or(Refusal::Vacant)?;
    let goes = emission::sends(s);
    change_source(store, i, Some(goes), None)
}

// Withdraws a source.
pub fn withdraw_source(store: &mut [u8], slot: u16) -> Answer
    requires { damaged store.old ≡ false }
    ensures { ((result, store.new) ≡ told store.old (withdraw_source slot (book_of store.old))) × (damaged store.new ≡ false) }
{
    judge::judge_slot(store::LAST_SOURCE, slot)?;
    leave_source(store, usize::from(slot))
}

// Places a receiver whose fields and slot are allowed: whoever is in the slot goes.
// Apart, so that a call on a wall has no stack for it.
#[inline(never)]
fn enter_receiver(store: &mut [u8], j: usize, r: Receiver) -> Answer
    requires { (damaged store.old ≡ false) × (j < receiver_count) × (receiver_verdict r ≡ Ok tt) }
    ensures { (result, store.new) ≡ told store.old (change_receiver j (some r) (book_of store.old)) }
{
    let mut room = [fences::BLANK; store::WALLS];
    let walls = fences::standing(store, &mut room);
    let sums = gather::gather(&walls, store, r)?;
    store::put(store, j, Some(Held { who: r, sums }));
    Ok(Reply::Done)
}

// Places a receiver.
pub fn place_receiver(store: &mut [u8], slot: u16, r: Receiver) -> Answer
    requires { damaged store.old ≡ false }
    ensures { ((result, store.new) ≡ told store.old (place_receiver slot r (book_of store.old))) × (damaged store.new ≡ false) }
{
    judge::judge_slot(store::LAST_RECEIVER, slot)?;
    judge::judge_receiver(r)?;
    enter_receiver(store, usize::from(slot), r)
}

// Withdraws the receiver of a slot that is allowed.
fn leave_receiver(store: &mut [u8], j: usize) -> Answer
    requires { (damaged store.old ≡ false) × (j < receiver_count) }
    ensures { (result, store.new) ≡ told store.old (leave_receiver j (book_of store.old)) }
{
    if store::read::<Held, _>(store, j).is_none() {
        return Err(Refusal::Vacant);
    }
    store::put::<Held, _>(store, j, None);
    Ok(Reply::Done)
}

// Withdraws a receiver.
pub fn withdraw_receiver(store: &mut [u8], slot: u16) -> Answer
    requires { damaged store.old ≡ false }
    ensures { ((result, store.new) ≡ told store.old (withdraw_receiver slot (book_of store.old))) × (damaged store.new ≡ false) }
{
    judge::judge_slot(store::LAST_RECEIVER, slot)?;
    leave_receiver(store, usize::from(slot))
}

// Whoever is in wall slot k goes, and w comes or nobody: every account is worked out afresh first, and only then is anything written.
fn change_wall(store: &mut [u8], k: usize, w: Option<Wall>) -> Answer
    requires { (damaged store.old ≡ false) × (k < wall_count) × WallMayStand w }
    ensures { (result, store.new) ≡ told store.old (change_wall k (entry w) (book_of store.old)) }
{
    let mut room = [fences::BLANK; store::WALLS];
    let walls = fences::changed(store, k, w, &mut room);
    let seats = afresh::go_afresh(&walls, store)?;
    round::write_seats(store, &seats);
    write_wall(store, k, w);
    Ok(Reply::Done)
}

// Writes a wall into slot k, or makes the slot free.
fn write_wall(store: &mut [u8], k: usize, w: Option<Wall>)
    requires { (damaged store.old ≡ false) × (k < wall_count) × WallMayStand w }
    ensures { store.new ≡ book_bytes (book (book_of store.old).sources (book_of store.old).receivers (set (book_of store.old).walls k (entry w))) }
{
    store::put(store, k, w);
}

// Places a wall.
pub fn place_wall(store: &mut [u8], slot: u16, w: Wall) -> Answer
    requires { damaged store.old ≡ false }
    ensures { ((result, store.new) ≡ told store.old (place_wall slot w (book_of store.old))) × (damaged store.new ≡ false) }
{
    judge::judge_slot(store::LAST_WALL, slot)?;
    judge::judge_wall(w)?;
    change_wall(store, usize::from(slot), Some(w))
}

// Withdraws the wall of a slot that is allowed.
fn leave_wall(store: &mut [u8], k: usize) -> Answer
    requires { (damaged store.old ≡ false) × (k < wall_count) }
    ensures { (result, store.new) ≡ told store.old (leave_wall k (book_of store.old)) }
{
    if store::read::<Wall, _>(store, k).is_none() {
        return Err(Refusal::Vacant);
    }
    change_wall(store, k, None)
}

// Withdraws a wall.
pub fn withdraw_wall(store: &mut [u8], slot: u16) -> Answer
    requires { damaged store.old ≡ false }
    ensures { ((result, store.new) ≡ told store.old (withdraw_wall slot (book_of store.old))) × (damaged store.new ≡ false) }
{
    judge::judge_slot(store::LAST_WALL, slot)?;
    leave_wall(store, usize::from(slot))
}

// The indices of the receiver of a slot that is allowed.
fn indices(store: &[u8], j: usize) -> Answer
    requires { (damaged store.now ≡ false) × (j < receiver_count) }
    ensures { (result, store.now) ≡ told store.now (indices_at j (book_of store.now)) }
{
    let x: Held = store::read(store, j).ok_or(Refusal::Vacant)?;
    let late = level::level(x.sums.night);
    let den = index::lden(x.sums.day, x.sums.evening, x.sums.night, late);
    let night = index::lnight(x.sums.night, late);
    Ok(Reply::Levels(den, night))
}

// Asks a receiver for its two indices.
pub fn ask(store: &[u8], slot: u16) -> Answer
    requires { damaged store.now ≡ false }
    ensures { (result, store.now) ≡ told store.now (ask_receiver slot (book_of store.now)) }
{
    judge::judge_slot(store::LAST_RECEIVER, slot)?;
    indices(store, usize::from(slot))
}
