//! The actuals of a written type, beside the constraints of the formals.

ghost use Rattle.std.specs.Prelude.{◌≡◌, ◌++◌, Some, slice_get, OnOk};
ghost use Rattle.eif_feature_rules.specs.DerivationRules as rules;
ghost use Rattle.eif_tree.specs.View.{class_view, formal_view, type_view};
ghost use Rattle.eif_types.specs.Writers.{HasBase, IsWriter, class_of, universe_of};
ghost use Rattle.eif_written.specs.LentTypes.{owner_name};

use crate::constraints::constraint_of;
use crate::types::Types;
use eif_base::{ClassId, Code, FaultList, Memory};
use eif_tree::{ClassTree, FormalTree, TypeTree};
use eif_universe::Universe;
use eif_written::{LentFault, Owner, push_where};
use std::alloc::Global;

/// A class whose written types are judged, in its universe.
#[derive(Clone, Copy)]
pub struct Writer<'u> {
    pub alloc: Global,
    pub u: &'u Universe,
    pub types: &'u Types,
    pub class_id: ClassId,
    pub class: &'u ClassTree,
}

impl<'u> Writer<'u> {
    /// XGEN.2: the actual does not conform to the constraint of the formal of the class `base`.
    fn push_wrong_actual(
        &self,
        owner: Owner<'_>,
        base: &ClassTree,
        actual: &TypeTree,
        formal: &FormalTree,
        out: &mut FaultList,
    ) -> Result<(), Memory>
        requires writer { IsWriter self.now }
        requires base { HasBase self.now (class_view base.now) }
        ensures { OnOk result (out.new ≡ out.old ++ rules.wrong_actual (universe_of self.now)
            self.now.class_id.0 (class_of self.now) (owner_name owner.entry) (class_view base.now)
            (type_view actual.now) (formal_view formal.now)) }
    {
        let t = self
            .types
            .resolve(self.alloc, self.u, self.class_id, actual)?;
        let constraint = constraint_of(self.alloc, self.u, base, formal)?;
        let conforms = self.types.conforms(self.class_id, &t, &constraint);
        let fault = LentFault {
            code: Code::Xgen,
            case: 2,
            class: &self.class.name,
            owner,
            place: actual.place,
            about: &formal.name,
        };
        push_where(self.alloc, out, !conforms, &fault)
    }

    /// Adds the faults of the actuals of a type that names the class `base`.
    pub fn push_wrong_actuals(
        &self,
        owner: Owner<'_>,
        base: &ClassTree,
        tree: &TypeTree,
        out: &mut FaultList,
    ) -> Result<(), Memory>
        requires writer { IsWriter self.now }
        requires base { HasBase self.now (class_view base.now) }
        ensures { OnOk result (out.new ≡ out.old ++ rules.actual_faults_by (universe_of self.now)
            self.now.class_id.0 (class_of self.now) (owner_name owner.entry) (type_view tree.now)
            (class_view base.now)) }
    {
        'actuals: for (i, actual) in tree.actuals.iter().enumerate() {
            if i < base.formals.len() {
                self.push_wrong_actual(owner, base, actual, &base.formals[i], out)?;
            }
        }
        Ok(())
    }
}
