//! The classes of a universe in an order of inheritance.

ghost use Rattle.std.specs.Prelude.{◌≡◌, ◌++◌, ◌∷◌, [], ◌<◌, ℕ, List, flat_map, length, map, slice_get, Some, None, IfOk, OnOk};
ghost use Rattle.std.specs.Option.{option_map};
ghost use Rattle.eif_classes.specs.Ancestry.{ancestor};
ghost use Rattle.eif_derivations.specs.DerivationRows.{IsDerivationRow};
ghost use Rattle.eif_derivations.specs.Filled.{AreDerivations, AreDerived, HaveDerivations};
ghost use Rattle.eif_derivations.specs.ListNumbers.{Keeps, lists_of};
ghost use Rattle.eif_derivations.specs.declared.derivation.DerivationRow as row;
ghost use Rattle.eif_feature_rules.specs.DerivationRules.{derivation_faults};
ghost use Rattle.eif_rows.specs.Numbers.{class_numbers};
ghost use Rattle.eif_rows.specs.Systems.{IsSystem};
ghost use Rattle.eif_system.specs.Graph.{IsOrder};
ghost use Rattle.eif_system.specs.Inheritance.{any_clause, graph_of, parent_numbers};
ghost use Rattle.eif_system.specs.Lineage.{line_of};
ghost use Rattle.eif_tree.specs.Tree.{ClassT};
ghost use Rattle.eif_tree.specs.View.{parent_view};
ghost use Rattle.eif_type_forms.specs.View.{actuals_view};
ghost use Rattle.eif_universe.specs.Universes.{classes_of};

use crate::clause::clause_actuals;
use crate::derivation::DerivationRow;
use crate::lists::ActualLists;
use crate::row_of_class::row_of_class;
use crate::ways::{given_by, list_of};
use eif_base::{ClassId, FaultList, Memory};
use eif_tree::ParentClause;
use eif_type_forms::Ty;
use eif_universe::Universe;
use eif_written::any_clauses;
use std::alloc::Global;

/// What each class of a universe gives its ancestors, by the numbers of the classes.
#[derive(Drop)]
pub struct Derivations {
    pub(crate) lists: ActualLists,
    pub(crate) rows: Vec<DerivationRow>,
}

/// No row for each of so many classes.
fn no_rows(alloc: Global, count: u32) -> Result<Vec<Option<DerivationRow>>, Memory>
    ensures { IfOk result (λ v. length v.items ≡ count) }
{
    let mut rows = Vec::with_capacity(alloc, count as usize)?;
    'classes: for _ in 0..count {
        rows.push(None)?;
    }
    Ok(rows)
}

/// The rows of the classes, of which each has one.
fn all_rows(alloc: Global, rows: Vec<Option<DerivationRow>>) -> Result<Vec<DerivationRow>, Memory>
    ensures length { IfOk result (λ v. length v.items ≡ length rows.items) }
    ensures each { IfOk result (λ v. (d : ℕ) (r : row.DerivationRow)
        → slice_get v.items d ≡ Some r → slice_get rows.items d ≡ Some (Some r)) }
{
    let mut all = Vec::with_capacity(alloc, rows.len())?;
    'rows: for row in rows {
        let Some(row) = row else {
            return Err(Memory);
        };
        all.push(row)?;
    }
    Ok(all)
}

/// What the class gives its ancestors. Adds the faults of its derivations.
fn derive_class(
    alloc: Global,
    u: &Universe,
    any: &[ParentClause],
    rows: &[Option<DerivationRow>],
    class_id: ClassId,
    lists: &mut ActualLists,
    out: &mut FaultList,
) -> Result<DerivationRow, Memory>
    requires class { class_id.0 < length (classes_of u.now) }
    requires system { IsSystem (classes_of u.now) }
    requires any { map parent_view any.now ≡ any_clause ∷ [] }
    requires rows { let u = classes_of u.now in (c : ClassT) → slice_get u class_id.0 ≡ Some c
        → HaveDerivations u (lists_of lists.old) rows.now (parent_numbers u c) }
    ensures kept { Keeps (lists_of lists.old) (lists_of lists.new) }
    ensures row { IfOk result
        (IsDerivationRow (classes_of u.now) (lists_of lists.new) class_id.0) }
    ensures faults { let u = classes_of u.now in OnOk result
        (out.new ≡ out.old ++ derivation_faults u (line_of u class_id.0)) }
{
    let clauses = clause_actuals(alloc, u, any, rows, class_id)?;
    row_of_class(alloc, u, class_id, &clauses, lists, out)
}

/// The rows of the classes in this order of inheritance. Adds the faults of their derivations.
fn fill_rows(
    alloc: Global,
    u: &Universe,
    any: &[ParentClause],
    order: &[ClassId],
    lists: &mut ActualLists,
    out: &mut FaultList,
) -> Result<Vec<Option<DerivationRow>>, Memory>
    requires system { IsSystem (classes_of u.now) }
    requires any { map parent_view any.now ≡ any_clause ∷ [] }
    requires order { IsOrder (graph_of (classes_of u.now)) (class_numbers order.now) }
    ensures rows { IfOk result (λ v. AreDerived (classes_of u.now) (lists_of lists.new) v.items
        (class_numbers order.now)) }
    ensures faults { let u = classes_of u.now in OnOk result (out.new ≡ out.old
        ++ flat_map (λ d. derivation_faults u (line_of u d)) (class_numbers order.now)) }
{
    let mut rows = no_rows(alloc, u.class_count())?;
    'order: for class_id in order {
        let row = derive_class(alloc, u, any, &rows, *class_id, lists, out)?;
        rows[class_id.0 as usize] = Some(row);
    }
    Ok(rows)
}

impl Derivations {
    /// What each class of the universe gives its ancestors. Adds the faults of the derivations, class by
    /// class in its order of inheritance.
    pub fn of(alloc: Global, u: &Universe, out: &mut FaultList) -> Result<Derivations, Memory>
        requires { IsSystem (classes_of u.now) }
        ensures rows { IfOk result (AreDerivations (classes_of u.now)) }
        ensures faults { let u = classes_of u.now in OnOk result ((order : List ℕ) × IsOrder (graph_of u) order
            × (out.new ≡ out.old ++ flat_map (λ d. derivation_faults u (line_of u d)) order)) }
    {
        let any = any_clauses(alloc)?;
        let mut lists = ActualLists::new(alloc);
        let filled = fill_rows(alloc, u, &any, u.order(), &mut lists, out)?;
        let rows = all_rows(alloc, filled)?;
        Ok(Derivations { lists, rows })
    }

    // What the class with that number gives its ancestors.
    fn row(&self, class_id: ClassId) -> Option<&DerivationRow>
        ensures { option_map (λ r. r.now) result ≡ slice_get self.now.rows.items class_id.0 }
    {
        self.rows.get(class_id.0 as usize)
    }

    /// What the class gives the formals of the class k. None where it is not k and does not descend
    /// from it, and where its ways to k do not give one list.
    pub fn given(&self, class_id: ClassId, k: ClassId) -> Option<&[Ty]>
        ensures { (u : List ClassT) → IsSystem u → AreDerivations u self.now
            → option_map (λ l. actuals_view l.now) result ≡ ancestor u class_id.0 k.0 }
    {
        match self.row(class_id) {
            Some(row) => match given_by(class_id, row, k) {
                Some(id) => list_of(&self.lists, id),
                None => None,
            },
            None => None,
        }
    }
}
