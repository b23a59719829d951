// Wall slots, after the receiver slots.
// Numbers are those of a slot, its use mark first.
ghost use Rattle.std.specs.Prelude.{◌+◌, ◌*◌, ◌<◌};
ghost use Rattle.store.specs.Placed.{wall_place, wall_placed};
ghost use Rattle.store.specs.Store.{wall_count, walls_begin, wall_party, wall_at, wall_slot_of, WallStands};

use crate::party::Slotted;
use crate::slot::Slots;
use crate::{WALL_SIZE, WALLS, WALLS_BEGIN};
use fields::WALL;
use screen::Wall;

// A slot's numbers: its mark and a wall's values.
const NUMBERS: usize = 1 + fields::WALL_ROWS;

// Where they stand, and the widths of the numbers: a byte for the mark, the bytes of each field.
static SLOTS: Slots<NUMBERS> = Slots {
    begin: WALLS_BEGIN,
    count: WALLS,
    size: WALL_SIZE,
    widths: [
        8,
        8 * WALL[0].bytes,
        8 * WALL[1].bytes,
        8 * WALL[2].bytes,
        8 * WALL[3].bytes,
        8 * WALL[4].bytes,
    ],
};

impl Slotted<NUMBERS> for Wall {
    ghost party = { wall_party };

    ghost count = { wall_count };

    ghost begin = { walls_begin };

    ghost place = { wall_place };

    ghost slot = { wall_at };

    ghost reading = { wall_slot_of };

    ghost stands = { WallStands };

    fn slots<'a>() -> &'a Slots<NUMBERS> {
        &SLOTS
    }

    fn from_numbers(v: &[u64; NUMBERS]) -> Wall {
        fields::wall_of(v, 1)
    }

    fn allowed(v: &[u64; NUMBERS]) -> bool {
        judge::judge_wall(Wall::from_numbers(v)).is_ok()
    }

    fn numbers(self) -> [u64; NUMBERS] {
        let mut v = [0; NUMBERS];
        v[0] = 1;
        v[1..].copy_from_slice(&fields::wall_values(self));
        v
    }

    ghost placed = { wall_placed };
}
