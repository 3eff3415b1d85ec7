ghost use Rattle.std.specs.Prelude.{ℕ, ◌≤◌, IfOk};

use eif_base::Memory;
use std::alloc::Global;

/// Work on items that lie in a row. Any part of the row can be done alone.
pub trait PieceWork {
    /// What comes of a part of the row.
    type Out: Send + Drop;

    /// How many items there are.
    ghost items: { Self → ℕ };

    /// What has to hold of the work before any part of it is done.
    ghost needs: { Self → Type 0 };

    /// What is true of the result for the items from the first number to before the second.
    ghost gives: { Self → ℕ → ℕ → Self.Out → Type 0 };

    /// Does the items from `first` to before `past`.
    fn run(&self, alloc: Global, first: u32, past: u32) -> Result<Self::Out, Memory>
        requires order { first ≤ past }
        requires within { past ≤ items self.now }
        requires needs { needs self.now }
        ensures { IfOk result (λ out. gives self.now first past out) };
}
