ghost use Rattle.std.specs.Prelude.{◌≡◌, ◌<◌, ◌∷◌, [], ◌++◌, List, length, map, slice_get, Some, IfOk, IfSome, OnOk};
ghost use Rattle.eif_adapt.specs.Adaptations.{adapted, entry_view};
ghost use Rattle.eif_base.specs.declared.fault.Fault.{Fault};
ghost use Rattle.eif_feature_rules.specs.FeatureRules.{adaptation_faults};
ghost use Rattle.eif_feature_rules.specs.RuleForms.{each_clause};
ghost use Rattle.eif_heirs.specs.AdaptedClauses.{row_features, faults_by, IsParent, AreAdapted};
ghost use Rattle.eif_heirs.specs.Clauses.{ups_in, IsClause};
ghost use Rattle.eif_heirs.specs.RowsAbove.{AreRowsAbove};
ghost use Rattle.eif_rows.specs.Matched.{Match};
ghost use Rattle.eif_rows.specs.Systems.{IsSystem};
ghost use Rattle.eif_system.specs.Inheritance.{any_clause, clauses};
ghost use Rattle.eif_tree.specs.Tree.{ClassT, ParentT};
ghost use Rattle.eif_tree.specs.View.{class_view, parent_view};
ghost use Rattle.eif_universe.specs.Universes.{classes_of};

use crate::parent_features::parent_features;
use crate::redefines::{DeclaringClass, final_names};
use eif_adapt::{Adapted, AdaptedEntry, adapt};
use eif_base::{ClassId, FaultList, Memory};
use eif_rows::Row;
use eif_tree::ParentClause;
use eif_universe::Universe;
use eif_written::clauses_of;
use std::alloc::Global;

/// A parent clause, with the number and the row of its class and what it makes of the features there.
#[derive(Drop)]
pub struct Clause<'u> {
    pub tree: &'u ParentClause,
    pub parent: ClassId,
    pub row: &'u Row,
    pub adapted: Vec<AdaptedEntry>,
}

// What the clause of the class makes of the features of the class with that row. Adds its faults.
fn adapted_entries(
    alloc: Global,
    class: &DeclaringClass<'_>,
    clause: &ParentClause,
    row: &Row,
    out: &mut FaultList,
) -> Result<Vec<AdaptedEntry>, Memory>
    ensures entries { IfOk result (λ es. map entry_view es.items
        ≡ map (adapted (parent_view clause.now)) (row_features row.now)) }
    ensures faults { OnOk result (out.new ≡ out.old
        ++ faults_by (class_view class.now.tree.now) (parent_view clause.now)
        (row_features row.now)) }
{
    let features = parent_features(alloc, row)?;
    let Adapted { entries } = adapt(alloc, &class.tree.name, clause, &features, out)?;
    let finals = final_names(alloc, &entries)?;
    class.push_undeclared_redefines(out, &finals, &clause.redefines)?;
    Ok(entries)
}

// The row of the class, if it has one.
fn row_of(rows: &[Option<Row>], class_id: ClassId) -> Option<&Row>
    ensures { IfSome result (λ r. slice_get rows.now class_id.0 ≡ Some (Some r.now)) }
{
    match rows.get(class_id.0 as usize) {
        Some(Some(row)) => Some(row),
        _ => None,
    }
}

// Adds the clause of the class, whose class has that number and its row among these. Adds its faults.
fn push_adapted<'u>(
    alloc: Global,
    class: &DeclaringClass<'u>,
    tree: &'u ParentClause,
    parent: ClassId,
    rows: &'u [Option<Row>],
    clauses: &mut Vec<Clause<'u>>,
    out: &mut FaultList,
) -> Result<(), Memory>
    ensures { let c = class_view class.now.tree.now in
        (u : List ClassT) (old : List Fault) (before : List ParentT)
        → IsParent u c rows.now (parent_view tree.now) parent
        → AreAdapted u c old out.old clauses.old.items before
        → OnOk result (AreAdapted u c old out.new clauses.new.items
        (before ++ parent_view tree.now ∷ [])) }
{
    // there is one: each class above has its row
    let Some(row) = row_of(rows, parent) else {
        return Err(Memory);
    };
    let adapted = adapted_entries(alloc, class, tree, row, out)?;
    clauses.push(Clause {
        tree,
        parent,
        row,
        adapted,
    })?;
    Ok(())
}

// The clauses of the class, whose classes have these numbers. Adds the faults of each.
fn adapted_over<'u>(
    alloc: Global,
    class: &DeclaringClass<'u>,
    trees: &'u [ParentClause],
    parents: &[ClassId],
    rows: &'u [Option<Row>],
    out: &mut FaultList,
) -> Result<Vec<Clause<'u>>, Memory>
    ensures { let c = class_view class.now.tree.now in (u : List ClassT)
        → Match (IsParent u c rows.now) (map parent_view trees.now) parents.now
        → IfOk result (λ v. AreAdapted u c out.old out.new v.items (map parent_view trees.now)) }
{
    let mut clauses = Vec::with_capacity(alloc, trees.len())?;
    'clauses: for (tree, parent) in trees.iter().zip(parents) {
        push_adapted(alloc, class, tree, *parent, rows, &mut clauses, out)?;
    }
    Ok(clauses)
}

/// The parent clauses of the class. One that writes none has the clause `any`, but for ANY itself.
/// Adds the faults of each clause.
pub fn adapted_clauses<'u>(
    alloc: Global,
    u: &'u Universe,
    any: &'u [ParentClause],
    rows: &'u [Option<Row>],
    class_id: ClassId,
    out: &mut FaultList,
) -> Result<Vec<Clause<'u>>, Memory>
    requires class { class_id.0 < length (classes_of u.now) }
    requires system { IsSystem (classes_of u.now) }
    requires any { map parent_view any.now ≡ any_clause ∷ [] }
    requires rows { AreRowsAbove (classes_of u.now) rows.now class_id.0 }
    ensures clauses { IfOk result (λ v. (c : ClassT) → slice_get (classes_of u.now) class_id.0 ≡ Some c
        → Match (IsClause (classes_of u.now) c) v.items (clauses c)) }
    ensures faults { OnOk result ((c : ClassT) → slice_get (classes_of u.now) class_id.0 ≡ Some c
        → out.new ≡ out.old ++ each_clause (adaptation_faults c) (ups_in (classes_of u.now) c)) }
{
    let tree = u.tree(class_id);
    let class = DeclaringClass::of(alloc, tree)?;
    let trees = clauses_of(tree, any);
    let clauses = adapted_over(alloc, &class, trees, u.parents(class_id), rows, out)?;
    Ok(clauses)
}
