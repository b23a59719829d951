// Receiver slots, after the source slots.
// Numbers are those of a slot, its use mark first.
ghost use Rattle.std.specs.Prelude.{◌+◌, ◌*◌, ◌<◌};
ghost use Rattle.store.specs.Placed.{receiver_place, held_placed};
ghost use Rattle.store.specs.Store.{receiver_count, split, held_party, receiver_at, seat_of, HeldStands};

use crate::party::Slotted;
use crate::slot::Slots;
use crate::{Held, RECEIVER_SIZE, RECEIVERS, SPLIT};
use account::Account;
use fields::RECEIVER;

// A slot's numbers: its mark, a receiver's values, and the three sums.
const SUMS: usize = 1 + fields::RECEIVER_ROWS;

const NUMBERS: usize = SUMS + 3;

// Where they stand, and the widths of the numbers: a byte for the mark, the bytes of each field, and eight bytes for a sum.
static SLOTS: Slots<NUMBERS> = Slots {
    begin: SPLIT,
    count: RECEIVERS,
    size: RECEIVER_SIZE,
    widths: [
        8,
        8 * RECEIVER[0].bytes,
        8 * RECEIVER[1].bytes,
        8 * RECEIVER[2].bytes,
        64,
        64,
        64,
    ],
};

impl Slotted<NUMBERS> for Held {
    ghost party = { held_party };

    ghost count = { receiver_count };

    ghost begin = { split };

    ghost place = { receiver_place };

    ghost slot = { receiver_at };

    ghost reading = { seat_of };

    ghost stands = { HeldStands };

    fn slots<'a>() -> &'a Slots<NUMBERS> {
        &SLOTS
    }

    fn from_numbers(v: &[u64; NUMBERS]) -> Held {
        let who = fields::receiver_of(v, 1);
        let [.., day, evening, night] = *v;
        let sums = Account {
            day,
            evening,
            night,
        };
        Held { who, sums }
    }

    fn allowed(v: &[u64; NUMBERS]) -> bool {
        let h = Held::from_numbers(v);
        judge::judge_receiver(h.who).is_ok() && h.sums.sound()
    }

    fn numbers(self) -> [u64; NUMBERS] {
        let Account {
            day,
            evening,
            night,
        } = self.sums;
        let mut v = [0; NUMBERS];
        v[0] = 1;
        v[1..SUMS].copy_from_slice(&fields::receiver_values(self.who));
        v[SUMS..].copy_from_slice(&[day, evening, night]);
        v
    }

    ghost placed = { held_placed };
}
