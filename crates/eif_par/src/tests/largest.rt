ghost use Rattle.std.specs.Prelude.{ℕ, ◌<◌, ◌≤◌, ⊤, IsSomeAnd, length, slice_index};

use crate::PieceWork;
use eif_base::Memory;
use std::alloc::Global;

/// The largest of the numbers of each piece.
#[derive(Drop)]
pub struct Largest<'a> {
    pub numbers: &'a [u32],
}

impl PieceWork for Largest<'_> {
    type Out = Option<u32>;

    ghost items = { λ w. length w.numbers.now };

    ghost needs = { λ _. ⊤ };

    ghost gives = { λ w first past out. (k : ℕ) → first ≤ k → k < past
        → IsSomeAnd out (λ n. slice_index w.numbers.now k ≤ n) };

    fn run(&self, _alloc: Global, first: u32, past: u32) -> Result<Option<u32>, Memory> {
        let mut best: Option<u32> = None;
        for i in first..past {
            let x = self.numbers[i as usize];
            best = Some(match best {
                None => x,
                Some(n) => n.max(x),
            });
        }
        Ok(best)
    }
}
