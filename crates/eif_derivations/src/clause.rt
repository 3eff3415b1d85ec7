//! The parent clauses of a class with their actuals.

ghost use Rattle.std.specs.Prelude.{◌≡◌, ◌∷◌, [], ◌<◌, ◌^◌, ℕ, List, length, map, slice_get, Some, IfOk, IfSome};
ghost use Rattle.std.specs.Option.{option_map};
ghost use Rattle.eif_classes.specs.Resolution as the;
ghost use Rattle.eif_classes.specs.Types.{Actuals};
ghost use Rattle.eif_derivations.specs.Filled.{HaveDerivations};
ghost use Rattle.eif_derivations.specs.ParentActuals.{AreClauseActuals};
ghost use Rattle.eif_rows.specs.Systems.{IsSystem};
ghost use Rattle.eif_system.specs.Inheritance.{any_clause, parent_numbers};
ghost use Rattle.eif_tree.specs.Tree.{ClassT};
ghost use Rattle.eif_tree.specs.View.{class_view, parent_view, type_view};
ghost use Rattle.eif_type_forms.specs.View.{ty_view, actuals_view};
ghost use Rattle.eif_universe.specs.Universes.{classes_of};

use crate::derivation::DerivationRow;
use eif_base::{ClassId, Memory};
use eif_tree::{ClassTree, ParentClause, TypeTree};
use eif_type_forms::{Ty, resolve};
use eif_universe::Universe;
use eif_written::clauses_of;
use std::alloc::Global;

/// A parent clause: its class, the row of this, and the actuals that the clause gives it.
#[derive(Drop)]
pub struct ClauseActuals<'u> {
    pub tree: &'u ParentClause,
    pub parent: ClassId,
    pub row: &'u DerivationRow,
    pub actuals: Vec<Ty>,
}

/// The actuals of a class type.
fn actuals_in(alloc: Global, t: Ty) -> Vec<Ty>
    ensures { actuals_view result.items ≡ the.actuals_in (ty_view t) }
{
    match t {
        Ty::Class { actuals, .. } => actuals,
        Ty::Formal { .. } | Ty::Nothing => Vec::new(alloc),
    }
}

/// The actuals of the type that the class writes.
fn written_actuals(
    alloc: Global,
    u: &Universe,
    class: &ClassTree,
    tree: &TypeTree,
) -> Result<Vec<Ty>, Memory>
    requires { length class.now.formals.items < 2 ^ 32 }
    ensures { IfOk result (λ v. actuals_view v.items ≡ the.actuals_in
        (the.resolved (classes_of u.now) (class_view class.now) (type_view tree.now))) }
{
    let t = resolve(alloc, u, class, tree)?;
    Ok(actuals_in(alloc, t))
}

/// The row of the class, if it has one.
fn row_of(rows: &[Option<DerivationRow>], class_id: ClassId) -> Option<&DerivationRow>
    ensures { IfSome result (λ r. slice_get rows.now class_id.0 ≡ Some (Some r.now)) }
{
    match rows.get(class_id.0 as usize) {
        Some(Some(row)) => Some(row),
        _ => None,
    }
}

/// The clauses of the class, whose classes have their rows. `any` is the clause of a class that writes
/// none.
pub fn clause_actuals<'u>(
    alloc: Global,
    u: &'u Universe,
    any: &'u [ParentClause],
    rows: &'u [Option<DerivationRow>],
    class_id: ClassId,
) -> Result<Vec<ClauseActuals<'u>>, Memory>
    requires class { class_id.0 < length (classes_of u.now) }
    requires system { IsSystem (classes_of u.now) }
    requires any { map parent_view any.now ≡ any_clause ∷ [] }
    ensures { let u = classes_of u.now in IfOk result (λ v. (c : ClassT) (lists : List Actuals)
        → slice_get u class_id.0 ≡ Some c → HaveDerivations u lists rows.now (parent_numbers u c)
        → AreClauseActuals u lists c v.items) }
{
    let class = u.tree(class_id);
    let trees = clauses_of(class, any);
    let mut clauses = Vec::with_capacity(alloc, trees.len())?;
    'clauses: for (tree, parent) in trees.iter().zip(u.parents(class_id)) {
        // there is one: each parent has its row
        let Some(row) = row_of(rows, *parent) else {
            return Err(Memory);
        };
        let actuals = written_actuals(alloc, u, class, &tree.parent)?;
        clauses.push(ClauseActuals {
            tree,
            parent: *parent,
            row,
            actuals,
        })?;
    }
    Ok(clauses)
}
