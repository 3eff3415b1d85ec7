//! The rules of the names of a class: where their versions come from, and how many there are.

ghost use Rattle.std.specs.Prelude.{◌≡◌, ◌++◌, ℕ, List, [], OnOk, map, flat_map};
ghost use Rattle.std.specs.Option.{option_map_or};
ghost use Rattle.eif_classes.specs.Descent as descent;
ghost use Rattle.eif_classes.specs.Entries.{Feature};
ghost use Rattle.eif_classes.specs.Features.{features};
ghost use Rattle.eif_feature_faults.specs.Versions.{HasVersion, version_faults};
ghost use Rattle.eif_feature_rules.specs.FeatureRules.{count_names, many_ancestor_names, many_names, name_faults, origin_faults};
ghost use Rattle.eif_heirs.specs.Drafts.{IsDraft};
ghost use Rattle.eif_heirs.specs.Heirs.{IsHeir};
ghost use Rattle.eif_heirs.specs.RowsAbove.{AreRowsAbove};
ghost use Rattle.eif_rows.specs.Matched.{Match};
ghost use Rattle.eif_rows.specs.Numbers.{class_numbers};
ghost use Rattle.eif_system.specs.Lineage.{line_of};
ghost use Rattle.eif_tree.specs.Tree.{ClassT};
ghost use Rattle.eif_tree.specs.View.{class_view};

use crate::name_counts::has_many_names;
use eif_base::limits::MOST_NAMES;
use eif_base::{ClassId, Code, FaultList, Memory, Name};
use eif_heirs::{FeatureDraft, Heir};
use eif_rows::{Row, Version};
use eif_tree::ClassTree;
use eif_written::{LentFault, push_fault, push_where};
use std::alloc::Global;

/// Adds the faults of the names of the class, which has these proper ancestors.
pub fn push_name_faults(
    alloc: Global,
    rows: &[Option<Row>],
    heir: &Heir<'_>,
    drafts: &[FeatureDraft],
    above: &[ClassId],
    out: &mut FaultList,
) -> Result<(), Memory>
    ensures { OnOk result ((u : List ClassT) → IsHeir u heir.now
        → AreRowsAbove u rows.now heir.now.class_id.0
        → Match (IsDraft u heir.now.class_id.0 (class_view heir.now.tree.now)) drafts.now
        (features (line_of u heir.now.class_id.0))
        → class_numbers above.now ≡ descent.above (line_of u heir.now.class_id.0)
        → out.new ≡ out.old ++ name_faults u (class_view heir.now.tree.now)
        (features (line_of u heir.now.class_id.0)) (descent.above (line_of u heir.now.class_id.0))) }
{
    push_origin_faults(alloc, heir.tree, &heir.names, drafts, out)?;
    push_many_names(alloc, heir.tree, heir.names.len(), out)?;
    push_many_ancestor_names(alloc, heir.tree, rows, above, out)?;
    Ok(())
}

/// Adds the faults of the names of the class, which has these versions under them.
fn push_origin_faults(
    alloc: Global,
    class: &ClassTree,
    names: &[Name],
    drafts: &[FeatureDraft],
    out: &mut FaultList,
) -> Result<(), Memory>
    ensures { OnOk result ((u : List ClassT) (fs : List Feature) → names.now ≡ map (λ f. f.name) fs
        → Match (HasVersion u) drafts.now fs
        → out.new ≡ out.old ++ flat_map (origin_faults (class_view class.now)) fs) }
{
    'names: for (i, draft) in drafts.iter().enumerate() {
        push_any_version_fault(alloc, class, names.get(i), draft.version, out)?;
    }
    Ok(())
}

// Adds the fault of the version of a name, if there is a name.
fn push_any_version_fault(
    alloc: Global,
    class: &ClassTree,
    name: Option<&Name>,
    version: Option<Version>,
    out: &mut FaultList,
) -> Result<(), Memory>
    ensures { OnOk result (out.new ≡ out.old
        ++ option_map_or (λ n. version_faults (class_view class.now) n.now version) name.entry []) }
{
    match name {
        Some(name) => push_version_fault(alloc, class, name, version, out),
        None => Ok(()),
    }
}

/// VMFN.3: several versions clash. VCCH.1: a class that isn't marked deferred has no version.
fn push_version_fault(
    alloc: Global,
    class: &ClassTree,
    name: &Name,
    version: Option<Version>,
    out: &mut FaultList,
) -> Result<(), Memory>
    ensures { OnOk result
        (out.new ≡ out.old ++ version_faults (class_view class.now) name.now version) }
{
    match version {
        None => {
            let fault = LentFault::at(class, Code::Vmfn, 3, class.place, name);
            push_fault(alloc, out, &fault)
        }
        Some(version) => {
            let fault = LentFault::at(class, Code::Vcch, 1, class.place, name);
            let is_broken = version.is_deferred() && !class.is_deferred;
            push_where(alloc, out, is_broken, &fault)
        }
    }
}

/// XLIM.5: the class has too many names.
fn push_many_names(
    alloc: Global,
    class: &ClassTree,
    count: usize,
    out: &mut FaultList,
) -> Result<(), Memory>
    ensures { OnOk result (out.new ≡ out.old ++ many_names (class_view class.now) count) }
{
    let is_broken = count > MOST_NAMES as usize;
    push_where(alloc, out, is_broken, &LentFault::of(class, Code::Xlim, 5))
}

/// XLIM.8: the ancestors of the class have too many names.
fn push_many_ancestor_names(
    alloc: Global,
    class: &ClassTree,
    rows: &[Option<Row>],
    above: &[ClassId],
    out: &mut FaultList,
) -> Result<(), Memory>
    ensures { OnOk result ((u : List ClassT) (d : ℕ) → AreRowsAbove u rows.now d
        → class_numbers above.now ≡ descent.above (line_of u d)
        → out.new ≡ out.old ++ many_ancestor_names (class_view class.now)
        (map (count_names u) (class_numbers above.now))) }
{
    let is_broken = has_many_names(rows, above);
    push_where(alloc, out, is_broken, &LentFault::of(class, Code::Xlim, 8))
}
