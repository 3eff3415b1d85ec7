//! The ways from a class to an ancestor: one by each clause whose class is the ancestor or descends
//! from it.

ghost use Rattle.std.specs.Prelude.{◌≡◌, List, Option, true, false, Some, slice_get, map, IfOk, IfSome, IfNone};
ghost use Rattle.std.specs.Option.{option_map};
ghost use Rattle.eif_classes.specs.Ancestry as the;
ghost use Rattle.eif_classes.specs.Descent.{descends};
ghost use Rattle.eif_classes.specs.Types.{Actuals};
ghost use Rattle.eif_derivations.specs.DerivationRows.{IsDerivationRow, IsGiven};
ghost use Rattle.eif_derivations.specs.ListNumbers.{Holds, lists_of};
ghost use Rattle.eif_derivations.specs.ParentActuals.{AreClauseActuals, lines_over};
ghost use Rattle.eif_derivations.specs.WayViews.{ways_view};
ghost use Rattle.eif_rows.specs.Systems.{IsSystem};
ghost use Rattle.eif_system.specs.Lineage.{line_of};
ghost use Rattle.eif_tree.specs.Tree.{ClassT};
ghost use Rattle.eif_type_forms.specs.View.{actuals_view};

use crate::clause::ClauseActuals;
use crate::derivation::DerivationRow;
use crate::lists::{ActualLists, ListId};
use eif_base::{ClassId, Memory};
use eif_tree::ParentClause;
use eif_type_forms::Ty;
use std::alloc::Global;

/// A way: the clause with its actuals, and what its class gives the ancestor, if that is defined.
#[derive(Clone, Copy)]
pub struct WayTo<'r> {
    pub tree: &'r ParentClause,
    pub actuals: &'r [Ty],
    pub given: Option<&'r [Ty]>,
}

/// The number of what the class with that number and that row gives the class k: none where it is
/// not k and does not descend from it.
pub fn given_by(class_id: ClassId, row: &DerivationRow, k: ClassId) -> Option<Option<ListId>>
    ensures given { IfSome result (λ x. (u : List ClassT) (lists : List Actuals) (c : ClassT)
        → IsSystem u → slice_get u class_id.0 ≡ Some c → IsDerivationRow u lists class_id.0 row.now
        → IsGiven u lists class_id.0 k.0 x) }
    ensures down { IfSome result (λ x. (u : List ClassT) (lists : List Actuals) (c : ClassT)
        → IsSystem u → slice_get u class_id.0 ≡ Some c → IsDerivationRow u lists class_id.0 row.now
        → descends (line_of u class_id.0) k.0 ≡ true) }
    ensures none { IfNone result ((u : List ClassT) (lists : List Actuals) (c : ClassT)
        → IsSystem u → slice_get u class_id.0 ≡ Some c → IsDerivationRow u lists class_id.0 row.now
        → descends (line_of u class_id.0) k.0 ≡ false) }
{
    if class_id == k {
        return Some(Some(row.own));
    }
    match row.find(k) {
        Some(derivation) => Some(derivation.actuals),
        None => None,
    }
}

/// The list with that number, if there is a number.
pub fn list_of(lists: &ActualLists, id: Option<ListId>) -> Option<&[Ty]>
    ensures { (xs : Option Actuals) → Holds (lists_of lists.now) id xs
        → option_map (λ l. actuals_view l.now) result ≡ xs }
{
    match id {
        Some(id) => lists.get(id),
        None => None,
    }
}

/// The ways from the class with these clauses to the class k.
pub fn ways_to<'r>(
    alloc: Global,
    lists: &'r ActualLists,
    clauses: &'r [ClauseActuals<'r>],
    k: ClassId,
) -> Result<Vec<WayTo<'r>>, Memory>
    ensures { IfOk result (λ v. (u : List ClassT) (c : ClassT) → IsSystem u
        → AreClauseActuals u (lists_of lists.now) c clauses.now
        → ways_view v.items ≡ the.ways u c (lines_over u c) k.0) }
{
    let mut ways = Vec::with_capacity(alloc, clauses.len())?;
    'clauses: for clause in clauses {
        if let Some(id) = given_by(clause.parent, clause.row, k) {
            ways.push(WayTo {
                tree: clause.tree,
                actuals: &clause.actuals,
                given: list_of(lists, id),
            })?;
        }
    }
    Ok(ways)
}
