ghost use Rattle.std.specs.Prelude.{◌≡◌, [], ◌++◌, ◌∷◌, IfOk, OnOk};
ghost use Rattle.eif_rules.specs.FaultForms.{fault_at, fault_in, fault_of, fault_where};
ghost use Rattle.eif_tree.specs.View.{class_view};
ghost use Rattle.eif_written.specs.LentFaults.{fault_of_lent};
ghost use Rattle.eif_written.specs.LentTypes.{owner_name};

use crate::written::Owner;
use eif_base::{Code, Fault, FaultList, Memory, Name, Place};
use eif_tree::ClassTree;
use std::alloc::Global;

/// A fault whose names are lent.
#[derive(Clone, Copy)]
pub struct LentFault<'t> {
    pub code: Code,
    pub case: u8,
    pub class: &'t Name,
    pub owner: Owner<'t>,
    pub place: Place,
    pub about: &'t Name,
}

impl<'t> LentFault<'t> {
    /// A fault in a feature of the class.
    pub fn within(
        class: &'t ClassTree,
        feature: &'t Name,
        code: Code,
        case: u8,
        place: Place,
        about: &'t Name,
    ) -> LentFault<'t>
        ensures { fault_of_lent result
            ≡ fault_in (class_view class.now) feature.now code case place about.now }
    {
        LentFault {
            code,
            case,
            class: &class.name,
            owner: Owner::Feature(feature),
            place,
            about,
        }
    }

    /// A fault of the class in no feature.
    pub fn at(
        class: &'t ClassTree,
        code: Code,
        case: u8,
        place: Place,
        about: &'t Name,
    ) -> LentFault<'t>
        ensures { fault_of_lent result ≡ fault_at (class_view class.now) code case place about.now }
    {
        LentFault {
            code,
            case,
            class: &class.name,
            owner: Owner::Class,
            place,
            about,
        }
    }

    /// A fault at the class's name and about it.
    pub fn of(class: &'t ClassTree, code: Code, case: u8) -> LentFault<'t>
        ensures { fault_of_lent result ≡ fault_of (class_view class.now) code case }
    {
        LentFault::at(class, code, case, class.place, &class.name)
    }

    /// The fault with names of its own.
    fn owned(&self, alloc: Global) -> Result<Fault, Memory>
        ensures { IfOk result (λ f. f ≡ fault_of_lent self.now) }
    {
        Ok(Fault {
            code: self.code,
            case: self.case,
            class: self.class.copy(alloc)?,
            feature: self.owner.name(alloc)?,
            place: self.place,
            about: self.about.copy(alloc)?,
        })
    }
}

/// Adds the fault.
pub fn push_fault(alloc: Global, out: &mut FaultList, fault: &LentFault<'_>) -> Result<(), Memory>
    ensures { OnOk result (out.new ≡ out.old ++ fault_of_lent fault.now ∷ []) }
{
    out.push(fault.owned(alloc)?)
}

/// Adds the fault where the rule is broken.
pub fn push_where(
    alloc: Global,
    out: &mut FaultList,
    is_broken: bool,
    fault: &LentFault<'_>,
) -> Result<(), Memory>
    ensures { OnOk result (out.new ≡ out.old ++ fault_where is_broken (fault_of_lent fault.now)) }
{
    if is_broken {
        push_fault(alloc, out, fault)?;
    }
    Ok(())
}
