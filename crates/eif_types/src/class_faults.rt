//! The types that a class writes, each with the types in it.

ghost use Rattle.std.specs.Prelude.{◌≡◌, ◌++◌, flat_map, map, OnOk};
ghost use Rattle.std.specs.List.{list_any};
ghost use Rattle.std.specs.Option.{option_map};
ghost use Rattle.std.specs.Str.{bytes_eq};
ghost use Rattle.eif_feature_rules.specs.DerivationRules as rules;
ghost use Rattle.eif_system.specs.Universe as system;
ghost use Rattle.eif_system.specs.WrittenTypes.{nested};
ghost use Rattle.eif_tree.specs.View.{formal_view, type_view};
ghost use Rattle.eif_types.specs.Writers.{IsWriter, class_of, universe_of};
ghost use Rattle.eif_written.specs.LentTypes.{owner_name, written_view};

use crate::actual_faults::Writer;
use eif_base::{ClassId, FaultList, Memory, Name};
use eif_tree::{FormalTree, TypeTree};
use eif_written::{Owner, WrittenType, nested_types, written_types};

/// Whether one of the formals has that name.
fn has_formal(formals: &[FormalTree], name: &Name) -> bool
    ensures { result ≡ list_any (λ f. bytes_eq f.name name.now) (map formal_view formals.now) }
{
    'formals: for formal in formals {
        if formal.name == *name {
            return true;
        }
    }
    false
}

impl<'u> Writer<'u> {
    /// The class that the name denotes in the class: none where a formal hides it.
    fn class_denoted(&self, name: &Name) -> Option<ClassId>
        ensures { option_map (λ k. k.0) result
            ≡ system.class_denoted (universe_of self.now) (class_of self.now) name.now }
    {
        if has_formal(&self.class.formals, name) {
            None
        } else {
            self.u.class_named(name)
        }
    }

    /// Adds the faults of the actuals of the type, where it names a class.
    fn push_type_faults(
        &self,
        owner: Owner<'_>,
        tree: &TypeTree,
        out: &mut FaultList,
    ) -> Result<(), Memory>
        requires { IsWriter self.now }
        ensures { OnOk result (out.new ≡ out.old ++ rules.actual_faults (universe_of self.now)
            self.now.class_id.0 (class_of self.now) (owner_name owner.entry) (type_view tree.now)) }
    {
        match self.class_denoted(&tree.name) {
            Some(base) => self.push_wrong_actuals(owner, self.u.tree(base), tree, out),
            None => Ok(()),
        }
    }

    /// Adds those of the type and of each type in it.
    fn push_written_faults(
        &self,
        written: &WrittenType<'_>,
        out: &mut FaultList,
    ) -> Result<(), Memory>
        requires { IsWriter self.now }
        ensures { OnOk result (out.new ≡ out.old
            ++ flat_map (rules.actual_faults (universe_of self.now) self.now.class_id.0
            (class_of self.now) (owner_name written.now.owner))
            (nested (type_view written.now.type_tree.now))) }
    {
        let types = nested_types(self.alloc, written.type_tree)?;
        'types: for tree in &types {
            self.push_type_faults(written.owner, tree, out)?;
        }
        Ok(())
    }

    /// Adds those of all types that the class writes.
    pub fn push_faults(&self, out: &mut FaultList) -> Result<(), Memory>
        requires { IsWriter self.now }
        ensures { OnOk result (out.new ≡ out.old ++ rules.written_actual_faults
            (universe_of self.now) self.now.class_id.0 (class_of self.now)) }
    {
        let types = written_types(self.alloc, self.class)?;
        'types: for written in &types {
            self.push_written_faults(written, out)?;
        }
        Ok(())
    }
}
