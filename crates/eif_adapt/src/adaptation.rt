ghost use Rattle.std.specs.Prelude.{◌≡◌, ◌++◌, map, IfOk, OnOk, OnErr};
ghost use Rattle.eif_adapt.specs.Adaptations.{adapted, entry_view, feature_view};
ghost use Rattle.eif_feature_rules.specs.ClauseRules.{clause_faults};
ghost use Rattle.eif_tree.specs.View.{parent_view};

use crate::adapted::Adapted;
use crate::clause::Clause;
use crate::parent_feature::ParentFeature;
use eif_base::{FaultList, Memory, Name};
use eif_tree::ParentClause;
use std::alloc::Global;

/// What the parent clause of the class with that name makes of the features of its class. Adds the
/// faults of the clause.
pub fn adapt(
    alloc: Global,
    class_name: &Name,
    clause: &ParentClause,
    names: &[ParentFeature],
    out: &mut FaultList,
) -> Result<Adapted, Memory>
    ensures entries { IfOk result (λ a. map entry_view a.entries.items
        ≡ map (adapted (parent_view clause.now)) (map feature_view names.now)) }
    ensures faults { OnOk result (out.new ≡ out.old
        ++ clause_faults class_name.now (parent_view clause.now) (map feature_view names.now)) }
    ensures err { OnErr result (out.new ≡ out.old) }
{
    let clause = Clause::new(alloc, class_name, clause, names)?;
    let mut faults = FaultList::new(alloc);
    clause.push_faults(&mut faults)?;
    let entries = clause.entries()?;
    out.merge(&faults)?;
    Ok(Adapted { entries })
}
