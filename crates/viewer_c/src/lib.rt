// The viewer's calls for programs in C, by the names and with the arguments that include/ngoretaiwhe.h declares: a slice is a pointer
// and a length. Each is the call of the crate viewer, and promises the same; no call requires anything.
#![tactic(auto)]

ghost use Rattle.std.specs.Prelude.{◌≡◌};
ghost use Rattle.viewer.specs.Viewer.{cleared, applied, asked};

// Makes a store of the right length a book with nothing in it.
#[unsafe(no_mangle)]
pub extern "C" fn ngoretaiwhe_clear(store: &mut [u8]) -> u32
    ensures { (result, store.new) ≡ cleared store.old }
{
    viewer::ngoretaiwhe_clear(store)
}

// Does one record to a store. One that bytes follow is only tried, so that nothing is written.
#[unsafe(no_mangle)]
pub extern "C" fn ngoretaiwhe_apply(store: &mut [u8], record: &[u8]) -> u32
    ensures { (result, store.new) ≡ applied «record».now store.old }
{
    viewer::ngoretaiwhe_apply(store, record)
}

// Asks a receiver for its two indices.
#[unsafe(no_mangle)]
pub extern "C" fn ngoretaiwhe_ask(store: &[u8], slot: usize, out: &mut [u8]) -> u32
    ensures { (result, out.new) ≡ asked slot store.now out.old }
{
    viewer::ngoretaiwhe_ask(store, slot, out)
}
