//! The constraints of formals.

ghost use Rattle.std.specs.Prelude.{◌≡◌, ◌<◌, ◌^◌, List, length, map, Some, slice_get, IfOk};
ghost use Rattle.eif_classes.specs.Constraints as the;
ghost use Rattle.eif_rows.specs.Systems.{IsSystem};
ghost use Rattle.eif_tree.specs.View.{class_view, formal_view};
ghost use Rattle.eif_type_forms.specs.View.{ty_view};
ghost use Rattle.eif_types.specs.TypeTables as tables;
ghost use Rattle.eif_universe.specs.Universes.{classes_of};

use eif_base::{ClassId, Memory};
use eif_tree::{ClassTree, FormalTree, Mark};
use eif_type_forms::{Ty, resolve};
use eif_universe::Universe;
use std::alloc::Global;

/// The number of ANY, which is the kernel's first class.
const ANY: ClassId = ClassId(0);

/// What a formal without a constraint is held to.
fn detachable_any(alloc: Global) -> Ty
    ensures { ty_view result ≡ the.detachable_any }
{
    Ty::Class {
        class_id: ANY,
        mark: Mark::Detachable,
        actuals: Vec::new(alloc),
    }
}

/// The constraint of the formal of the class.
pub fn constraint_of(
    alloc: Global,
    u: &Universe,
    class: &ClassTree,
    formal: &FormalTree,
) -> Result<Ty, Memory>
    requires { length class.now.formals.items < 2 ^ 32 }
    ensures { IfOk result (λ t. ty_view t
        ≡ the.formal_constraint (classes_of u.now) (class_view class.now) (formal_view formal.now)) }
{
    match &formal.constraint {
        Some(tree) => resolve(alloc, u, class, tree),
        None => Ok(detachable_any(alloc)),
    }
}

/// The constraints of the formals of the class, in their order.
fn constraints_of(alloc: Global, u: &Universe, class: &ClassTree) -> Result<Vec<Ty>, Memory>
    requires { length class.now.formals.items < 2 ^ 32 }
    ensures { IfOk result (λ v. map ty_view v.items
        ≡ tables.constraints_of (classes_of u.now) (class_view class.now)) }
{
    let mut constraints = Vec::with_capacity(alloc, class.formals.len())?;
    'formals: for formal in &class.formals {
        constraints.push(constraint_of(alloc, u, class, formal)?)?;
    }
    Ok(constraints)
}

/// The constraints of the formals of each class, by the numbers of the classes.
pub fn all_constraints(alloc: Global, u: &Universe) -> Result<Vec<Vec<Ty>>, Memory>
    requires { IsSystem (classes_of u.now) }
    ensures { let u = classes_of u.now in IfOk result
        (λ v. map (λ v. map ty_view v.items) v.items ≡ map (tables.constraints_of u) u) }
{
    let mut all = Vec::with_capacity(alloc, u.class_count() as usize)?;
    'classes: for number in 0..u.class_count() {
        all.push(constraints_of(alloc, u, u.tree(ClassId(number)))?)?;
    }
    Ok(all)
}
