ghost use Rattle.std.specs.Prelude.{◌≡◌, map, length, slice_get};
ghost use Rattle.std.specs.List.{list_any};
ghost use Rattle.std.specs.Option.{option_map};
ghost use Rattle.std.specs.Str.{bytes_eq};
ghost use Rattle.std.proofs.Props.{props};
ghost use Rattle.eif_tree.specs.View.{class_view, formal_view};
ghost use Rattle.eif_system.specs.Universe as universe;
ghost use Rattle.eif_universe.specs.ClassNumbering.{IsNumbering};

use crate::class_numbers::ClassNumbers;
use eif_base::Name;
use eif_tree::{ClassTree, FormalTree};

/// The classes of a universe and their numbers.
#[derive(Clone, Copy)]
pub(crate) struct Classes<'u> {
    pub trees: &'u [ClassTree],
    pub numbers: &'u ClassNumbers,
    ghost numbered: { IsNumbering (map class_view trees.now) numbers.now } by { Prim.hlevel props },
}

impl Classes<'_> {
    ghost use Rattle.eif_rules.specs.UniverseRules.{formal_count};
    ghost use Rattle.eif_universe.specs.ClassesView.{classes_view};

    /// The number of the first class with that name.
    pub fn number_of(&self, name: &Name) -> Option<u32>
        ensures { result ≡ universe.class_number (classes_view self.now) name.now }
    {
        self.numbers.find(name.text())
    }

    /// The number of the class that a name denotes where it stands in that class.
    pub fn denoted(&self, class: &ClassTree, name: &Name) -> Option<u32>
        ensures { result ≡ universe.class_denoted (classes_view self.now) (class_view class.now)
            name.now }
    {
        if is_formal(class, name) {
            return None;
        }
        self.number_of(name)
    }

    /// The class with that number.
    pub fn tree(&self, number: u32) -> Option<&ClassTree>
        ensures { option_map (λ t. class_view t.now) result
            ≡ slice_get (classes_view self.now) number }
    {
        self.trees.get(number as usize)
    }

    /// How many formals the class with that number has.
    pub fn formal_count(&self, number: u32) -> usize
        ensures { result ≡ formal_count (classes_view self.now) number }
    {
        match self.tree(number) {
            Some(class) => count_formals(&class.formals),
            None => 0,
        }
    }
}

fn count_formals(formals: &[FormalTree]) -> usize
    ensures { result ≡ length (map formal_view formals.now) }
{
    formals.len()
}

/// Whether one of the formals has that name.
pub(crate) fn has_formal(formals: &[FormalTree], name: &Name) -> bool
    ensures { result ≡ list_any (λ f. bytes_eq f.name name.now) (map formal_view formals.now) }
{
    'formals: for formal in formals {
        if formal.name == *name {
            return true;
        }
    }
    false
}

/// Whether the name is that of a formal of the class.
pub(crate) fn is_formal(class: &ClassTree, name: &Name) -> bool
    ensures { result ≡ universe.is_formal (class_view class.now) name.now }
{
    has_formal(&class.formals, name)
}
