//! The root procedure in the root class: VSRP.

ghost use Rattle.std.specs.Prelude.{◌≡◌, ◌++◌, List, map, IfOk, OnOk, codes};
ghost use Rattle.std.specs.List.{list_any};
ghost use Rattle.std.specs.Option.{option_map};
ghost use Rattle.std.specs.Str.{bytes_eq};
ghost use Rattle.eif_classes.specs.Creators.{default_creator};
ghost use Rattle.eif_feature_rules.specs.CreatorRules as rules;
ghost use Rattle.eif_redecl.specs.SeenClauses as clauses;
ghost use Rattle.eif_signatures.specs.DerivedSystems.{classes_in};
ghost use Rattle.eif_system.specs.Lineage.{line_of};
ghost use Rattle.eif_tree.specs.View.{class_view};

use crate::creators::creator_names;
use crate::entry::Heir;
use eif_base::{ClassId, Code, FaultList, Memory, Name, Root};
use eif_tree::NameAt;
use eif_written::{LentFault, push_where};

/// The number of ANY.
const ANY: ClassId = ClassId(0);

/// Whether one of these is that name.
fn has_name(names: &[&NameAt], name: &Name) -> bool
    ensures { result ≡ list_any (λ n. bytes_eq n.name name.now) (map (λ n. n.now) names.now) }
{
    'names: for one in names {
        if one.name == *name {
            return true;
        }
    }
    false
}

impl<'u> Heir<'u> {
    /// The name of ANY's `default_create` in the class.
    fn default_creator(&self) -> Result<Option<&'u Name>, Memory>
        requires heir { clauses.IsHeir self.now }
        ensures { IfOk result (λ o. option_map (λ n. n.now) o
            ≡ default_creator (line_of (classes_in self.now.system) self.now.class_id.0)) }
    {
        let tables = self.system.tables;
        let written = Name::from_bytes(self.system.alloc, b"default_create")?;
        // there is one: it is a feature of the kernel's ANY
        let Some(feat) = tables.find(ANY, &written) else {
            return Err(Memory);
        };
        match tables.bind(self.class_id, ANY, feat) {
            Some(name) => Ok(Some(tables.name(self.class_id, name))),
            None => Ok(None),
        }
    }

    /// Whether the class creates by that name.
    fn is_creator(&self, name: &Name) -> Result<bool, Memory>
        requires heir { clauses.IsHeir self.now }
        ensures { IfOk result (λ b. b ≡ rules.is_creator
            (line_of (classes_in self.now.system) self.now.class_id.0) name.now) }
    {
        if !self.class.creators.is_empty() {
            let names = creator_names(self.system.alloc, self.class)?;
            return Ok(has_name(&names, name));
        }
        match self.default_creator()? {
            Some(default) => Ok(default == name),
            None => Ok(false),
        }
    }

    /// Whether the class has a feature of that name with arguments.
    fn has_arguments(&self, name: &Name) -> Result<bool, Memory>
        requires heir { clauses.IsHeir self.now }
        ensures { let u = classes_in self.now.system in IfOk result
            (λ b. b ≡ rules.has_arguments u (line_of u self.now.class_id.0) name.now) }
    {
        match self.system.tables.find(self.class_id, name) {
            Some(feat) => {
                let signature = self.system.signature(self.class_id, feat)?;
                Ok(!signature.arguments.is_empty())
            }
            None => Ok(false),
        }
    }

    /// Whether the class is the root class.
    fn is_root(&self, root: &Root) -> bool
        ensures { result
            ≡ rules.is_root (classes_in self.now.system) root.now self.now.class_id.0 }
    {
        match self.system.universe.class_named(&root.class_name) {
            Some(class_id) => class_id == self.class_id,
            None => false,
        }
    }

    /// VSRP.1: the class is the root class, and the root procedure is no creator of it or has arguments.
    pub(crate) fn push_root_procedure(&self, root: &Root, out: &mut FaultList) -> Result<(), Memory>
        requires heir { clauses.IsHeir self.now }
        ensures { let u = classes_in self.now.system in let d = self.now.class_id.0 in
            OnOk result (out.new ≡ out.old ++ rules.root_procedure_faults u root.now d
            (class_view self.now.class.now) (line_of u d)) }
    {
        if !self.is_root(root) {
            return Ok(());
        }
        let name = &root.procedure_name;
        let is_broken = !self.is_creator(name)? || self.has_arguments(name)?;
        let fault = LentFault::at(self.class, Code::Vsrp, 1, self.class.place, name);
        push_where(self.system.alloc, out, is_broken, &fault)
    }
}
