//! What classes give the formals of their ancestors, and the constraints of their own formals.

ghost use Rattle.std.specs.Prelude.{◌≡◌, List, map, true, false, Some, slice_get, IfOk, IfSome, IfNone};
ghost use Rattle.std.specs.Option.{option_map};
ghost use Rattle.eif_classes.specs.Ancestry.{ancestor};
ghost use Rattle.eif_classes.specs.Constraints as the;
ghost use Rattle.eif_classes.specs.Descent.{descends};
ghost use Rattle.eif_classes.specs.Resolution.{resolved};
ghost use Rattle.eif_system.specs.Lineage.{line_of};
ghost use Rattle.eif_tree.specs.Tree.{ClassT};
ghost use Rattle.eif_tree.specs.View.{class_view, type_view};
ghost use Rattle.eif_type_forms.specs.View.{ty_view, actuals_view};
ghost use Rattle.eif_types.specs.TypeTables.{AreTypes, AreTypesOf, HasClass, constraint_lists};
ghost use Rattle.eif_universe.specs.Universes.{classes_of};

use eif_base::{ClassId, Memory};
use eif_derivations::Derivations;
use eif_tree::TypeTree;
use eif_type_forms::{Ty, resolve};
use eif_universe::Universe;
use std::alloc::Global;

/// The types of a universe. Numbers of classes are those of the universe.
#[derive(Drop)]
pub struct Types {
    pub(crate) derivations: Derivations,
    pub(crate) constraints: Vec<Vec<Ty>>,
}

/// The type in that place of the list.
fn type_in(types: &[Ty], index: u32) -> Option<&Ty>
    ensures { option_map (λ t. ty_view t.now) result ≡ slice_get (map ty_view types.now) index }
{
    types.get(index as usize)
}

impl Types {
    // The constraints of the formals of the class with that number.
    fn constraints(&self, c: ClassId) -> Option<&[Ty]>
        ensures { option_map (λ ts. map ty_view ts.now) result
            ≡ slice_get (constraint_lists self.now) c.0 }
    {
        match self.constraints.get(c.0 as usize) {
            Some(constraints) => Some(constraints),
            None => None,
        }
    }

    // The constraint of the formal in that place of the class.
    pub(crate) fn constraint(&self, c: ClassId, index: u32) -> Option<&Ty>
        ensures { (u : List ClassT) → AreTypesOf u self.now
            → option_map (λ t. ty_view t.now) result ≡ the.constraint u c.0 index }
    {
        match self.constraints(c) {
            Some(constraints) => type_in(constraints, index),
            None => None,
        }
    }

    /// What the class `c` gives the formals of the class `k`: types over the formals of `c`. None
    /// exactly where `c` is not `k` and does not descend from it.
    pub fn ancestor(&self, c: ClassId, k: ClassId) -> Option<&[Ty]>
        requires { HasClass self.now c }
        ensures given { (u : List ClassT) → AreTypes u self.now
            → option_map (λ l. actuals_view l.now) result ≡ ancestor u c.0 k.0 }
        ensures some { IfSome result (λ l. (u : List ClassT) → AreTypes u self.now
            → descends (line_of u c.0) k.0 ≡ true) }
        ensures none { IfNone result ((u : List ClassT) → AreTypes u self.now
            → descends (line_of u c.0) k.0 ≡ false) }
    {
        self.derivations.given(c, k)
    }

    /// What the type means in the class `c`.
    pub fn resolve(
        &self,
        alloc: Global,
        u: &Universe,
        c: ClassId,
        tree: &TypeTree,
    ) -> Result<Ty, Memory>
        requires types { AreTypesOf (classes_of u.now) self.now }
        requires class { HasClass self.now c }
        ensures { IfOk result (λ t. (class : ClassT) → slice_get (classes_of u.now) c.0 ≡ Some class
            → ty_view t ≡ resolved (classes_of u.now) class (type_view tree.now)) }
    {
        resolve(alloc, u, u.tree(c), tree)
    }
}

fn crosses<T: Send + Sync>() {}

/// Types may be sent to another thread, and shared by threads.
pub fn types_cross() {
    crosses::<Types>();
}
