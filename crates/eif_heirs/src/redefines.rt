//! The rule that a class declares what its clauses redefine.

ghost use Rattle.std.specs.Prelude.{◌≡◌, ◌++◌, ℕ, List, map, IfOk, OnOk};
ghost use Rattle.std.proofs.Props.{props};
ghost use Rattle.eif_adapt.specs.NamedItems.{IsNameSet};
ghost use Rattle.eif_base.specs.Numbering.{is_among};
ghost use Rattle.eif_tree.specs.Members as the;
ghost use Rattle.eif_tree.specs.View.{class_view};

use crate::declared::{DeclaredName, declared_names};
use eif_adapt::AdaptedEntry;
use eif_base::{Code, Fault, FaultList, Memory, Name, NameSet};
use eif_tree::{ClassTree, NameAt};
use std::alloc::Global;

/// A class, with the set of the names that it declares.
#[derive(Drop)]
pub(crate) struct DeclaringClass<'u> {
    alloc: Global,
    pub tree: &'u ClassTree,
    declared: NameSet,
    ghost declared_are: { IsNameSet declared (the.declared_names (class_view tree.now)) } by { Prim.hlevel props },
}

// The set of the names.
fn name_set(alloc: Global, names: &[DeclaredName<'_>]) -> Result<NameSet, Memory>
    ensures { IfOk result (λ s. IsNameSet s (map (λ x. x.name.now) names.now)) }
{
    let mut set = NameSet::new(alloc);
    'names: for declared in names {
        set.insert(&declared.name.name)?;
    }
    Ok(set)
}

/// The set of the names that these have in the heir.
pub fn final_names(alloc: Global, entries: &[AdaptedEntry]) -> Result<NameSet, Memory>
    ensures { IfOk result (λ s. (n : List ℕ) → is_among s n
        ≡ is_among (map (λ e. e.final_name) entries.now) n) }
{
    let mut set = NameSet::new(alloc);
    'entries: for entry in entries {
        set.insert(&entry.final_name)?;
    }
    Ok(set)
}

impl<'u> DeclaringClass<'u> {
    ghost use Rattle.eif_feature_rules.specs.ClauseRules.{each_listed};
    ghost use Rattle.eif_feature_rules.specs.FeatureRules.{undeclared_redefine};
    ghost use Rattle.eif_tree.specs.declared.tree.NameAt.{NameAt};

    /// The class with that text.
    pub fn of(alloc: Global, tree: &'u ClassTree) -> Result<DeclaringClass<'u>, Memory>
        ensures { IfOk result (λ d. d.tree.now ≡ tree.now) }
    {
        let names = declared_names(alloc, tree)?;
        Ok(DeclaringClass {
            alloc,
            tree,
            declared: name_set(alloc, &names)?,
        })
    }

    /// VDRS.3: a redefined name is one of these final names of the clause, and the class does not
    /// declare it. One that stands before in the list is judged there.
    fn push_undeclared_redefine(
        &self,
        out: &mut FaultList,
        finals: &NameSet,
        earlier: &NameSet,
        name: &NameAt,
    ) -> Result<(), Memory>
        ensures { (before : List NameAt) → IsNameSet earlier.now before → OnOk result (out.new
            ≡ out.old ++ undeclared_redefine (class_view self.now.tree.now) finals.now before
            name.now) }
    {
        if finals.has(&name.name) && !earlier.has(&name.name) && !self.declared.has(&name.name) {
            out.push(Fault {
                code: Code::Vdrs,
                case: 3,
                class: self.tree.name.copy(self.alloc)?,
                feature: Name::from_bytes(self.alloc, b"")?,
                place: name.place,
                about: name.name.copy(self.alloc)?,
            })?;
        }
        Ok(())
    }

    /// Adds the faults of the names that a clause with these final names redefines.
    pub fn push_undeclared_redefines(
        &self,
        out: &mut FaultList,
        finals: &NameSet,
        redefines: &[NameAt],
    ) -> Result<(), Memory>
        ensures { OnOk result (out.new ≡ out.old
            ++ each_listed (undeclared_redefine (class_view self.now.tree.now) finals.now)
            redefines.now) }
    {
        let mut earlier = NameSet::new(self.alloc);
        'names: for name in redefines {
            self.push_undeclared_redefine(out, finals, &earlier, name)?;
            earlier.insert(&name.name)?;
        }
        Ok(())
    }
}
