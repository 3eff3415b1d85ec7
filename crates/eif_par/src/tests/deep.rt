ghost use Rattle.std.specs.Prelude.{ℕ, ◌^◌, ⊤};

use crate::PieceWork;
use eif_base::Memory;
use std::alloc::Global;

/// How many numbers a level holds: 8 KiB.
const HELD: usize = 2_048;

/// Work that calls itself, so many levels deep, and holds 8 KiB at each level.
#[derive(Drop)]
pub struct Deep {
    pub levels: u32,
}

/// How many levels there were. Each holds a copy of what the level above it held, and changes it.
fn descend(levels: u32, above: &[u32; HELD]) -> u32 {
    if levels == 0 {
        return above[0];
    }
    let mut held = *above;
    let place = levels as usize % HELD;
    held[place] = levels;
    let below = descend(levels - 1, &held);
    if held[place] == levels {
        below.saturating_add(1)
    } else {
        0
    }
}

impl PieceWork for Deep {
    type Out = u32;

    ghost items = { λ _. 2 ^ 32 };

    ghost needs = { λ _. ⊤ };

    ghost gives = { λ _ _ _ _. ⊤ };

    fn run(&self, _alloc: Global, _first: u32, _past: u32) -> Result<u32, Memory> {
        Ok(descend(self.levels, &[0; HELD]))
    }
}
