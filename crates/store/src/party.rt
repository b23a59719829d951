// What stands in slots, be it a source, a receiver with its account or a wall: read, written and looked at for damage, once for all of them.
// Each says where its slots are, what their numbers mean, and who may stand there.
ghost use Rattle.std.specs.Prelude.{◌≡◌, ℕ, List, Option as RustOption, Some, ◌∷◌, ◌<◌, length, drop};
ghost use Rattle.layout.specs.Layout.{Within, fields};
ghost use Rattle.layout.specs.Over.{over};
ghost use Rattle.road.specs.Fields.{Fit};
ghost use Rattle.store.specs.Slots.{Party, party_layout, slot_size, slot_of, slot_bytes, entry, found, is_torn, any_torn};
ghost use Rattle.store.specs.Store.{store_length};
ghost use Rattle.store.specs.Placed.{Placed};

use crate::slot;
use crate::slot::Slots;

// A party whose slots have N numbers each, the use mark first.
pub trait Slotted<const N: usize>: Copy {
    // What the specification says of it: how it stands in slots; how many there are; where the first begins, and slot i; the bytes of
    // slot i; who is in a slot as its mark says; and who may stand in one.
    ghost party: { Party Self };

    ghost count: { ℕ };

    ghost begin: { ℕ };

    ghost place: { ℕ → ℕ };

    ghost slot: { ℕ → List ℕ → List ℕ };

    ghost reading: { List ℕ → RustOption Self };

    ghost stands: { Self → Type 0 };

    // Where its slots are, and the widths of their numbers.
    fn slots<'a>() -> &'a Slots<N>
        ensures place { (result.now.begin ≡ begin) × (result.now.count ≡ count) }
        ensures form { (result.now.size ≡ slot_size party) × (result.now.widths ≡ party_layout party) };

    // Who is described by numbers that have these widths.
    fn from_numbers(v: &[u64; N]) -> Self
        requires { Fit (party_layout party) 0 v.now }
        ensures { result ≡ party.from v.now };

    // Whether they are those of one that may stand.
    fn allowed(v: &[u64; N]) -> bool
        requires { Fit (party_layout party) 0 v.now }
        ensures { result ≡ party.ok v.now };

    // The numbers of one that may stand.
    fn numbers(self) -> [u64; N]
        requires { stands self }
        ensures { (result ≡ 1 ∷ party.to self) × Within (party_layout party) result };

    // These belong together.
    ghost placed: { Placed party N count begin place slot reading };
}

// Who is in slot i, if its mark says used: slots of which few are used are passed over quickly.
// That i is below the count is a clause, here and above: a type for it would be made at each turn of a range, to be taken apart at once.
pub fn read<P: Slotted<N>, const N: usize>(store: &[u8], i: usize) -> Option<P>
    requires { (i < P.count) × (length store.now ≡ store_length) }
    ensures { result ≡ P.reading (P.slot i store.now) }
{
    if !P::slots().marked(store, i) {
        return None;
    }
    Some(described(store, i))
}

// Who the numbers of slot i describe, whatever its mark says, in a store that is damaged too.
pub fn described<P: Slotted<N>, const N: usize>(store: &[u8], i: usize) -> P
    requires { (i < P.count) × (length store.now ≡ store_length) }
    ensures { result ≡ P.party.from (fields (party_layout P.party) (P.slot i store.now)) }
{
    let slots = P::slots();
    let v = slots.numbers(store, i);
    P::from_numbers(&v)
}

// Whether slot i is torn: its numbers are neither all zero nor those of one in use that may stand.
fn torn<P: Slotted<N>, const N: usize>(store: &[u8], i: usize) -> bool
    requires { (i < P.count) × (length store.now ≡ store_length) }
    ensures { result ≡ is_torn (slot_of P.party (P.slot i store.now)) }
{
    let v = P::slots().numbers(store, i);
    let unmarked = v[0] != 1;
    if unmarked {
        return !slot::blank(&v);
    }
    !P::allowed(&v)
}

// Whether one of its slots is torn.
pub(crate) fn any_torn<P: Slotted<N>, const N: usize>(store: &[u8]) -> bool
    requires { length store.now ≡ store_length }
    ensures { result ≡ any_torn (found P.party (drop P.begin store.now)) }
{
    (0..P::slots().count).any(
        |i| -> bool
            requires { (i < P.count) × (length store.now ≡ store_length) }
            ensures { result ≡ is_torn (slot_of P.party (P.slot i store.entry.now)) }
        { torn::<P, N>(store, i) },
    )
}

// Writes who is in slot i: all zero for nobody.
pub fn put<P: Slotted<N>, const N: usize>(store: &mut [u8], i: usize, who: Option<P>)
    requires place { (i < P.count) × (length store.old ≡ store_length) }
    requires stands { (x : P) → who ≡ Some x → P.stands x }
    ensures { store.new ≡ over (P.place i) (slot_bytes P.party (entry who)) store.old }
{
    let slots = P::slots();
    match who {
        Some(x) => slots.put(store, i, &x.numbers()),
        None => slots.put(store, i, &[0; N]),
    }
}
