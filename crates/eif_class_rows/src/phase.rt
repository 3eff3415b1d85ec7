//! The classes of a universe, each judged after its parents.

ghost use Rattle.std.specs.Prelude.{◌≡◌, ◌<◌, ◌∷◌, [], ◌++◌, length, map, IfErr, IfOk, OnOk};
ghost use Rattle.std.specs.List.{list_all};
ghost use Rattle.eif_class_rows.specs.Filling.{AreFilled, AreRowsFor, IsRowIfWhole};
ghost use Rattle.eif_class_rows.specs.Phase.{AreWholeRows, IsErrorOf};
ghost use Rattle.eif_classes.specs.Descent.{above};
ghost use Rattle.eif_feature_rules.specs.FeaturePhases.{feature_faults, FeaturesBroken, is_clean};
ghost use Rattle.eif_rows.specs.Numbers.{class_numbers};
ghost use Rattle.eif_rows.specs.Systems.{IsSystem};
ghost use Rattle.eif_rules.specs.FaultForms.{IsNone};
ghost use Rattle.eif_system.specs.Graph.{IsOrder};
ghost use Rattle.eif_system.specs.Inheritance.{any_clause, graph_of};
ghost use Rattle.eif_system.specs.Lineage.{line_of};
ghost use Rattle.eif_table_laws.specs.WholeClasses.{faults_by};
ghost use Rattle.eif_tree.specs.View.{parent_view};
ghost use Rattle.eif_universe.specs.Universes.{classes_of, given_in};

use crate::judged::push_judged;
use crate::rows::{all_rows, have_rows, no_rows};
use eif_base::{ClassId, FaultList, Memory};
use eif_rows::Row;
use eif_tree::ParentClause;
use eif_universe::Universe;
use eif_written::any_clauses;
use std::alloc::Global;

/// Why a universe has no tables of features.
#[derive(Drop)]
pub enum TableError {
    /// Its given classes break these rules of features. A class is judged where none of its proper
    /// ancestors breaks one.
    Faults(FaultList),
    /// There was not enough memory.
    Memory,
}

impl From<Memory> for TableError {
    ghost use Rattle.std.specs.Prelude.{◌≡◌};
    ghost use Rattle.eif_class_rows.specs.declared.phase.TableError.TheVariants as error;

    ghost from_gives = { λ _ r. r ≡ error.Memory };

    fn from(_error: Memory) -> TableError {
        TableError::Memory
    }
}

/// Whether no proper ancestor of the class has a breach.
fn has_clean_ancestors(u: &Universe, rows: &[Option<Row>], class_id: ClassId) -> bool
    requires class { class_id.0 < length (classes_of u.now) }
    requires system { IsSystem (classes_of u.now) }
    requires rows { AreRowsFor (classes_of u.now) rows.now class_id.0 }
    ensures { let u = classes_of u.now in
        result ≡ list_all (is_clean u) (above (line_of u class_id.0)) }
{
    have_rows(rows, u.parents(class_id))
}

/// Adds the breaches of the class, where its proper ancestors have none. Its row, if it has none
/// either.
fn judge_class(
    alloc: Global,
    u: &Universe,
    any: &[ParentClause],
    rows: &[Option<Row>],
    class_id: ClassId,
    out: &mut FaultList,
) -> Result<Option<Row>, Memory>
    requires class { class_id.0 < length (classes_of u.now) }
    requires system { IsSystem (classes_of u.now) }
    requires any { map parent_view any.now ≡ any_clause ∷ [] }
    requires rows { AreRowsFor (classes_of u.now) rows.now class_id.0 }
    ensures row { IfOk result (IsRowIfWhole (classes_of u.now) class_id.0) }
    ensures faults { let u = classes_of u.now in OnOk result
        (out.new ≡ out.old ++ feature_faults u (line_of u class_id.0)) }
{
    if has_clean_ancestors(u, rows, class_id) {
        push_judged(alloc, u, any, rows, class_id, out)
    } else {
        Ok(None)
    }
}

/// The rows of the classes in this order of inheritance. Adds their breaches.
fn filled(
    alloc: Global,
    u: &Universe,
    any: &[ParentClause],
    order: &[ClassId],
    out: &mut FaultList,
) -> Result<Vec<Option<Row>>, Memory>
    requires system { IsSystem (classes_of u.now) }
    requires any { map parent_view any.now ≡ any_clause ∷ [] }
    requires order { IsOrder (graph_of (classes_of u.now)) (class_numbers order.now) }
    ensures rows { IfOk result
        (λ v. AreFilled (classes_of u.now) v.items (class_numbers order.now)) }
    ensures faults { OnOk result
        (out.new ≡ out.old ++ faults_by (classes_of u.now) (class_numbers order.now)) }
{
    let mut rows = no_rows(alloc, u.class_count())?;
    'order: for class_id in order {
        let row = judge_class(alloc, u, any, &rows, *class_id, out)?;
        rows[class_id.0 as usize] = row;
    }
    Ok(rows)
}

/// The rows of all classes of the universe, by their numbers, or the breaches of the rules of
/// features.
pub fn class_rows(alloc: Global, u: &Universe) -> Result<Vec<Row>, TableError>
    requires { IsSystem (classes_of u.now) }
    ensures rows { IfOk result (λ v. AreWholeRows (classes_of u.now) v.items) }
    ensures sound { OnOk result (IsNone (FeaturesBroken (given_in (classes_of u.now)))) }
    ensures faults { IfErr result (IsErrorOf (FeaturesBroken (given_in (classes_of u.now)))) }
{
    let any = any_clauses(alloc)?;
    let mut faults = FaultList::new(alloc);
    let rows = filled(alloc, u, &any, u.order(), &mut faults)?;
    if !faults.is_empty() {
        return Err(TableError::Faults(faults));
    }
    Ok(all_rows(alloc, rows)?)
}
