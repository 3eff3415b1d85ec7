//! The rules of signatures of one class.

ghost use Rattle.std.specs.Prelude.{◌≡◌, ◌<◌, ◌≤◌, ◌++◌, length, OnErr, OnOk};
ghost use Rattle.eif_feature_rules.specs.FeaturePhases.{signature_faults};
ghost use Rattle.eif_redecl.specs.SeenClauses as clauses;
ghost use Rattle.eif_redecl.specs.SignaturePhase.{class_signature_faults};
ghost use Rattle.eif_signatures.specs.DerivedSystems.{IsDerivedUniverse, classes_in};
ghost use Rattle.eif_system.specs.Lineage.{line_of};
ghost use Rattle.eif_universe.specs.Universes.{classes_of};

use crate::entry::Heir;
use eif_base::{ClassId, FaultList, Memory, Root};
use eif_signatures::System;
use eif_tables::Tables;
use eif_types::Types;
use eif_universe::{KERNEL_COUNT, Universe};
use eif_written::{any_clauses, clauses_of};
use std::alloc::Global;

impl<'u> Heir<'u> {
    /// Adds the faults of the class, of its names and of its creators.
    fn push_faults(&self, root: &Root, out: &mut FaultList) -> Result<(), Memory>
        requires heir { clauses.IsHeir self.now }
        ensures { let u = classes_in self.now.system in OnOk result (out.new ≡ out.old
            ++ signature_faults u root.now (line_of u self.now.class_id.0)) }
    {
        let groups = self.entries()?;
        self.push_names(&groups, out)?;
        self.push_creators(out)?;
        self.push_root_procedure(root, out)
    }
}

/// Adds the breaches of the rules of signatures by the class `c`: of redeclaration and joining (VDRD,
/// VDJR), of the sizes of inherited signatures (XLIM.9), of creators (VGCP) and, in the root class, of
/// the root procedure (VSRP). Classes of the kernel are not judged. After want of memory the list is as
/// before.
pub fn check_redeclarations(
    alloc: Global,
    c: ClassId,
    root: &Root,
    u: &Universe,
    tables: &Tables,
    types: &Types,
    out: &mut FaultList,
) -> Result<(), Memory>
    requires universe { IsDerivedUniverse (classes_of u.now) tables.now types.now }
    requires class { c.0 < length (classes_of u.now) }
    ensures ok { OnOk result
        (out.new ≡ out.old ++ class_signature_faults (classes_of u.now) root.now c.0) }
    ensures err { OnErr result (out.new ≡ out.old) }
{
    if c.0 < KERNEL_COUNT {
        return Ok(());
    }
    let any = any_clauses(alloc)?;
    let class = u.tree(c);
    let heir = Heir {
        system: System {
            alloc,
            universe: u,
            tables,
            types,
        },
        class_id: c,
        class,
        clauses: clauses_of(class, &any),
    };
    let mut faults = FaultList::new(alloc);
    heir.push_faults(root, &mut faults)?;
    out.merge(&faults)
}
