//! A class beside its faults.

ghost use Rattle.std.specs.Prelude.{◌≡◌, ◌<◌, ◌∷◌, [], ◌++◌, length, map, IfOk, OnOk};
ghost use Rattle.eif_class_rows.specs.ClassRows.{IsJudged, IsRowIfSound};
ghost use Rattle.eif_feature_rules.specs.FeaturePhases.{own_feature_faults};
ghost use Rattle.eif_feature_rules.specs.FeatureRules.{adaptation_faults};
ghost use Rattle.eif_feature_rules.specs.RuleForms.{each_clause};
ghost use Rattle.eif_heirs.specs.Clauses.{ups_in};
ghost use Rattle.eif_heirs.specs.Heirs.{IsHeir};
ghost use Rattle.eif_heirs.specs.RowsAbove.{AreRowsAbove};
ghost use Rattle.eif_rows.specs.Systems.{IsSystem};
ghost use Rattle.eif_system.specs.Inheritance.{any_clause};
ghost use Rattle.eif_system.specs.Lineage.{line_of};
ghost use Rattle.eif_tree.specs.View.{class_view, parent_view};
ghost use Rattle.eif_universe.specs.Universes.{classes_of};

use crate::class_row::class_row;
use eif_base::{ClassId, FaultList, Memory};
use eif_choices::{Choices, choices_of};
use eif_feature_faults::{
    push_declaration_faults, push_name_faults, push_replication_faults, push_selection_faults,
};
use eif_heirs::{FeatureDraft, Heir, adapted_clauses, feature_drafts};
use eif_rows::Row;
use eif_tree::ParentClause;
use eif_universe::Universe;
use std::alloc::Global;

/// A class with its breaches of the rules of features: what it has under each of its names, and
/// what becomes in it of the features of its ancestors.
#[derive(Drop)]
pub struct Judged<'u> {
    pub heir: Heir<'u>,
    pub drafts: Vec<FeatureDraft>,
    pub choices: Choices,
    pub faults: FaultList,
}

/// The class over its parent clauses, of which it adds the breaches.
fn heir_of<'u>(
    alloc: Global,
    u: &'u Universe,
    any: &'u [ParentClause],
    rows: &'u [Option<Row>],
    class_id: ClassId,
    out: &mut FaultList,
) -> Result<Heir<'u>, Memory>
    requires class { class_id.0 < length (classes_of u.now) }
    requires system { IsSystem (classes_of u.now) }
    requires any { map parent_view any.now ≡ any_clause ∷ [] }
    requires rows { AreRowsAbove (classes_of u.now) rows.now class_id.0 }
    ensures class { IfOk result (λ h. h.class_id ≡ class_id) }
    ensures heir { IfOk result (IsHeir (classes_of u.now)) }
    ensures faults { IfOk result (λ h. let c = class_view h.tree.now in
        out.new ≡ out.old ++ each_clause (adaptation_faults c) (ups_in (classes_of u.now) c)) }
{
    let clauses = adapted_clauses(alloc, u, any, rows, class_id, out)?;
    Heir::of(alloc, class_id, u.tree(class_id), clauses)
}

/// The class, whose ancestors have no breach. `any` is the clause of a class that writes none.
fn judged_class<'u>(
    alloc: Global,
    u: &'u Universe,
    any: &'u [ParentClause],
    rows: &'u [Option<Row>],
    class_id: ClassId,
) -> Result<Judged<'u>, Memory>
    requires class { class_id.0 < length (classes_of u.now) }
    requires system { IsSystem (classes_of u.now) }
    requires any { map parent_view any.now ≡ any_clause ∷ [] }
    requires rows { AreRowsAbove (classes_of u.now) rows.now class_id.0 }
    ensures { IfOk result (IsJudged (classes_of u.now) class_id.0) }
{
    let mut faults = FaultList::new(alloc);
    let heir = heir_of(alloc, u, any, rows, class_id, &mut faults)?;
    let drafts = feature_drafts(alloc, u, &heir)?;
    let choices = choices_of(alloc, rows, &heir)?;
    push_declaration_faults(alloc, u, &heir, &mut faults)?;
    push_name_faults(alloc, rows, &heir, &drafts, &choices.above, &mut faults)?;
    push_selection_faults(alloc, &heir, &choices, &mut faults)?;
    push_replication_faults(
        alloc,
        u,
        rows,
        &heir,
        &drafts,
        &choices.ancestors,
        &mut faults,
    )?;
    Ok(Judged {
        heir,
        drafts,
        choices,
        faults,
    })
}

/// Adds the breaches of the class, whose ancestors have none. Its row, if it has none either.
pub fn push_judged(
    alloc: Global,
    u: &Universe,
    any: &[ParentClause],
    rows: &[Option<Row>],
    class_id: ClassId,
    out: &mut FaultList,
) -> Result<Option<Row>, Memory>
    requires class { class_id.0 < length (classes_of u.now) }
    requires system { IsSystem (classes_of u.now) }
    requires any { map parent_view any.now ≡ any_clause ∷ [] }
    requires rows { AreRowsAbove (classes_of u.now) rows.now class_id.0 }
    ensures row { IfOk result (IsRowIfSound (classes_of u.now) class_id.0) }
    ensures faults { let u = classes_of u.now in OnOk result
        (out.new ≡ out.old ++ own_feature_faults u (line_of u class_id.0)) }
{
    let judged = judged_class(alloc, u, any, rows, class_id)?;
    if judged.faults.is_empty() {
        return Ok(Some(class_row(alloc, judged)?));
    }
    out.merge(&judged.faults)?;
    Ok(None)
}
