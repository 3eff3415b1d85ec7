ghost use Rattle.std.specs.Prelude.{◌≡◌, ℕ, List, [], ◌||◌, not, OnOk, OnErr, IfOk};
ghost use Rattle.std.specs.Str.{bytes_eq};
ghost use Rattle.eif_base.specs.Numbering.{is_among, with_text};

use crate::memory::Memory;
use crate::name::Name;
use indexmap::IndexSet;
use std::alloc::Global;
use std::marker::Model;

/// A set of names.
#[derive(Debug, Drop)]
pub struct NameSet {
    alloc: Global,
    names: IndexSet<Vec<u8>>,
}

impl Model for NameSet {
    ghost use Rattle.std.specs.Prelude.{List, ℕ, map};
    ghost use Rattle.std.specs.Coded.{coded_list, coded_ℕ};

    ghost Value = { List (List ℕ) };

    ghost coded = { coded_list (coded_list coded_ℕ) };

    ghost view = { λ s. map (λ n. n.items) s.names.keys };
}

impl NameSet {
    /// No name.
    pub fn new(alloc: Global) -> NameSet
        ensures { result ≡ [] }
    {
        NameSet {
            alloc,
            names: IndexSet::new(alloc),
        }
    }

    /// Adds the name. True where it is new.
    pub fn insert(&mut self, name: &Name) -> Result<bool, Memory>
        ensures new { IfOk result (λ new. new ≡ not (is_among self.old name.now)) }
        ensures names { OnOk result (self.new ≡ with_text self.old name.now) }
        ensures has { OnOk result ((n : List ℕ) → is_among self.new n
            ≡ (bytes_eq n name.now || is_among self.old n)) }
        ensures err { OnErr result (self.new ≡ self.old) }
    {
        if self.has(name) {
            return Ok(false);
        }
        let copy = Vec::from_slice(self.alloc, name.text())?;
        self.names.insert(copy)?;
        Ok(true)
    }

    /// Whether the name is in the set.
    pub fn has(&self, name: &Name) -> bool
        ensures { result ≡ is_among self.now name.now }
    {
        self.names.contains(name.text())
    }
}
