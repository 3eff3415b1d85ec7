ghost use Rattle.std.specs.Prelude.{◌≡◌, ℕ, ◌<◌, ◌==◌, true, length, drop, IfOk};
ghost use Rattle.std.specs.List.{IsDistinct};
ghost use Rattle.std.specs.List.Sorted.{IsStrictlyIncreasing};
ghost use Rattle.eif_system.specs.Graph.{is_member};
ghost use Rattle.eif_ancestry.specs.Ancestries.{IsRisingListOf};

use eif_base::Memory;
use std::alloc::Global;
use std::marker::Model;

/// The proper ancestors of one class, by rising number.
#[derive(Drop)]
pub struct Ancestors {
    above: Vec<u32>,
}

impl Model for Ancestors {
    ghost use Rattle.std.specs.Prelude.{List, ℕ};
    ghost use Rattle.std.specs.List.Sorted.{IsStrictlyIncreasing};

    ghost Value = { List ℕ };

    ghost view = { λ a. a.above.items };

    ghost invariant = { λ a. IsStrictlyIncreasing a.above.items };
}

impl Ancestors {
    // The classes that a walk met after its first.
    pub(crate) fn from_walk(alloc: Global, met: &[u32]) -> Result<Self, Memory>
        requires first { 0 < length met.now }
        requires distinct { IsDistinct ◌==◌ met.now }
        ensures { IfOk result (IsRisingListOf (λ a. is_member a (drop 1 met.now) ≡ true)) }
    {
        let mut above = Vec::from_slice(alloc, &met[1..])?;
        above.sort_unstable();
        Ok(Ancestors { above })
    }

    /// Whether the class with this number is one of them.
    pub fn has(&self, a: u32) -> bool
        ensures { result ≡ is_member a self.now }
    {
        self.above.binary_search(&a).is_ok()
    }

    /// How many they are.
    pub fn count(&self) -> usize
        ensures { result ≡ length self.now }
    {
        self.above.len()
    }

    /// Their numbers, from least to greatest.
    pub fn as_slice(&self) -> &[u32]
        ensures numbers { result.now ≡ self.now }
        ensures rising { IsStrictlyIncreasing self.now }
    {
        &self.above
    }
}
