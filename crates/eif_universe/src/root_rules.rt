//! The rules on the root class.

ghost use Rattle.std.specs.Prelude.{◌≡◌, ◌++◌, [], ◌∷◌, drop, map, slice_get, take, OnOk};
ghost use Rattle.std.specs.Option.{option_map};
ghost use Rattle.eif_rules.specs.UniverseRules as the;
ghost use Rattle.eif_system.specs.Kernel.{kernel, kernel_count};
ghost use Rattle.eif_tree.specs.View.{class_view};
ghost use Rattle.eif_universe.specs.ClassesView.{classes_view};

use crate::classes::Classes;
use crate::kernel::KERNEL_COUNT;
use eif_base::{Code, FaultList, Memory, NO_FILE, Place, Root};
use eif_tree::ClassTree;
use eif_written::{LentFault, Owner, push_where};
use std::alloc::Global;

// The place of what stands in no file.
const NOWHERE: Place = Place {
    file: NO_FILE,
    offset: 0,
    line: 0,
    column: 0,
};

/// The class with that number.
fn class_at(trees: &[ClassTree], number: u32) -> Option<&ClassTree>
    ensures { option_map (λ t. class_view t.now) result
        ≡ slice_get (map class_view trees.now) number }
{
    trees.get(number as usize)
}

/// The root class, if it is given.
fn root_class<'u>(classes: &Classes<'u>, root: &Root) -> Option<&'u ClassTree>
    requires { take kernel_count (classes_view classes.now) ≡ kernel }
    ensures { option_map (λ t. class_view t.now) result
        ≡ the.root_class (drop kernel_count (classes_view classes.now)) root.now }
{
    let number = classes.number_of(&root.class_name)?;
    if number < KERNEL_COUNT {
        return None;
    }
    class_at(classes.trees, number)
}

/// Adds the faults of the root class.
fn push_root_class_faults(
    alloc: Global,
    out: &mut FaultList,
    class: &ClassTree,
) -> Result<(), Memory>
    ensures { OnOk result (out.new ≡ out.old ++ the.root_class_faults (class_view class.now)) }
{
    let is_deferred = class.is_deferred;
    push_where(
        alloc,
        out,
        is_deferred,
        &LentFault::of(class, Code::Vsrt, 2),
    )?;
    let is_generic = !class.formals.is_empty();
    push_where(alloc, out, is_generic, &LentFault::of(class, Code::Vsrt, 3))?;
    Ok(())
}

/// Adds the fault that the root class isn't given.
fn push_no_root_class(alloc: Global, out: &mut FaultList, root: &Root) -> Result<(), Memory>
    ensures { OnOk result (out.new ≡ out.old ++ the.no_root_class root.now ∷ []) }
{
    let fault = LentFault {
        code: Code::Vsrt,
        case: 1,
        class: &root.class_name,
        owner: Owner::Class,
        place: NOWHERE,
        about: &root.class_name,
    };
    push_where(alloc, out, true, &fault)?;
    Ok(())
}

/// Adds the faults of the root.
pub(crate) fn push_root_faults(
    alloc: Global,
    out: &mut FaultList,
    classes: &Classes<'_>,
    root: &Root,
) -> Result<(), Memory>
    requires { take kernel_count (classes_view classes.now) ≡ kernel }
    ensures { OnOk result (out.new
        ≡ out.old ++ the.root_faults (drop kernel_count (classes_view classes.now)) root.now) }
{
    match root_class(classes, root) {
        Some(class) => push_root_class_faults(alloc, out, class)?,
        None => push_no_root_class(alloc, out, root)?,
    }
    Ok(())
}
