//! The creators of a class: VGCP.

ghost use Rattle.std.specs.Prelude.{◌≡◌, ◌++◌, List, flat_map, map, IfOk, OnOk};
ghost use Rattle.eif_adapt.specs.NamedItems.{IsNameSet};
ghost use Rattle.eif_base.specs.declared.code.Code.TheVariants as code;
ghost use Rattle.eif_classes.specs.Features as features;
ghost use Rattle.eif_feature_rules.specs.CreatorRules as rules;
ghost use Rattle.eif_feature_rules.specs.RuleForms.{with_earlier};
ghost use Rattle.eif_redecl.specs.SeenClauses as clauses;
ghost use Rattle.eif_rules.specs.FaultForms.{fault_at};
ghost use Rattle.eif_signatures.specs.DerivedSystems.{classes_in};
ghost use Rattle.eif_system.specs.Lineage.{line_of};
ghost use Rattle.eif_tree.specs.Members as members;
ghost use Rattle.eif_tree.specs.View.{class_view, creators_view};
ghost use Rattle.eif_tree.specs.declared.tree.NameAt.{NameAt};
ghost use Rattle.eif_written.specs.LentFaults.{fault_of_lent};

use crate::entry::Heir;
use eif_base::{Code, FaultList, Memory, Name, NameSet};
use eif_tree::{ClassTree, CreatorPart, NameAt};
use eif_written::{LentFault, push_fault, push_where};
use std::alloc::Global;

/// Adds the names.
fn push_all<'c>(names: &'c [NameAt], out: &mut Vec<&'c NameAt>) -> Result<(), Memory>
    ensures { OnOk result (map (λ n. n.now) out.new.items
        ≡ map (λ n. n.now) out.old.items ++ names.now) }
{
    'names: for name in names {
        out.push(name)?;
    }
    Ok(())
}

/// The names of the class's creators parts, in the order of the text.
pub(crate) fn creator_names(alloc: Global, class: &ClassTree) -> Result<Vec<&NameAt>, Memory>
    ensures { IfOk result (λ v. map (λ n. n.now) v.items
        ≡ members.creator_names (class_view class.now)) }
{
    let mut names = Vec::new(alloc);
    'parts: for part in &class.creators {
        push_all(&part.names, &mut names)?;
    }
    Ok(names)
}

impl<'u> Heir<'u> {
    /// Whether the class has the name.
    fn has_feature(&self, name: &Name) -> bool
        requires heir { clauses.IsHeir self.now }
        ensures { result ≡ features.has_feature
            (line_of (classes_in self.now.system) self.now.class_id.0) name.now }
    {
        match self.system.tables.find(self.class_id, name) {
            Some(_) => true,
            None => false,
        }
    }

    /// A fault of the creator.
    fn creator_fault<'f>(&self, name: &'f NameAt, case: u8) -> LentFault<'f>
    where
        'u: 'f,
        ensures { fault_of_lent result ≡ fault_at (class_view self.now.class.now) code.Vgcp case
            name.now.place name.now.name }
    {
        LentFault::at(self.class, Code::Vgcp, case, name.place, &name.name)
    }

    /// Whether the class has a feature of that name with a result.
    fn has_result(&self, name: &Name) -> Result<bool, Memory>
        requires heir { clauses.IsHeir self.now }
        ensures { let u = classes_in self.now.system in IfOk result
            (λ b. b ≡ rules.has_result u (line_of u self.now.class_id.0) name.now) }
    {
        match self.system.tables.find(self.class_id, name) {
            Some(feat) => {
                let signature = self.system.signature(self.class_id, feat)?;
                Ok(signature.result.is_some())
            }
            None => Ok(false),
        }
    }

    /// VGCP.1: the class is deferred and has a creators part. The fault stands at the first creator.
    fn push_deferred_creation(&self, names: &[&NameAt], out: &mut FaultList) -> Result<(), Memory>
        requires { map (λ n. n.now) names.now
            ≡ members.creator_names (class_view self.now.class.now) }
        ensures { OnOk result
            (out.new ≡ out.old ++ rules.deferred_creation (class_view self.now.class.now)) }
    {
        let Some(first) = names.first() else {
            return Ok(());
        };
        let fault = LentFault::at(self.class, Code::Vgcp, 1, first.place, &first.name);
        push_where(self.system.alloc, out, self.class.is_deferred, &fault)
    }

    /// VGCP.2 to 4: a creator is no name of the class (2), has a result (3), or stands before (4).
    fn push_creator_faults(
        &self,
        name: &NameAt,
        earlier: &NameSet,
        out: &mut FaultList,
    ) -> Result<(), Memory>
        requires heir { clauses.IsHeir self.now }
        ensures { let u = classes_in self.now.system in (before : List NameAt)
            → IsNameSet earlier.now before → OnOk result (out.new ≡ out.old
            ++ rules.creator_faults_by u (class_view self.now.class.now)
            (line_of u self.now.class_id.0) before name.now) }
    {
        let alloc = self.system.alloc;
        let is_unknown = !self.has_feature(&name.name);
        push_where(alloc, out, is_unknown, &self.creator_fault(name, 2))?;
        let has_result = self.has_result(&name.name)?;
        push_where(alloc, out, has_result, &self.creator_fault(name, 3))?;
        let is_repeated = earlier.has(&name.name);
        push_where(alloc, out, is_repeated, &self.creator_fault(name, 4))
    }

    /// VGCP.2 to 4: adds the faults of these creators, each behind those before it.
    fn push_each_creator(&self, names: &[&NameAt], out: &mut FaultList) -> Result<(), Memory>
        requires heir { clauses.IsHeir self.now }
        ensures { let u = classes_in self.now.system in OnOk result (out.new ≡ out.old
            ++ flat_map (λ x. rules.creator_faults_by u (class_view self.now.class.now)
            (line_of u self.now.class_id.0) x.0 x.1) (with_earlier (map (λ n. n.now) names.now))) }
    {
        let mut earlier = NameSet::new(self.system.alloc);
        'names: for name in names {
            self.push_creator_faults(name, &earlier, out)?;
            earlier.insert(&name.name)?;
        }
        Ok(())
    }

    /// VGCP: adds the faults of the class's creators.
    pub(crate) fn push_creators(&self, out: &mut FaultList) -> Result<(), Memory>
        requires heir { clauses.IsHeir self.now }
        ensures { let u = classes_in self.now.system in OnOk result (out.new ≡ out.old
            ++ rules.creator_faults u (class_view self.now.class.now)
            (line_of u self.now.class_id.0)) }
    {
        let names = creator_names(self.system.alloc, self.class)?;
        self.push_deferred_creation(&names, out)?;
        self.push_each_creator(&names, out)
    }
}
