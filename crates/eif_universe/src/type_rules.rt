//! The faults of written types.

ghost use Rattle.std.specs.Prelude.{◌≡◌, ◌++◌, length, map, flat_map, OnOk};
ghost use Rattle.eif_base.specs.Numbering.{is_among};
ghost use Rattle.eif_rules.specs.FaultForms.{fault_in};
ghost use Rattle.eif_rules.specs.UniverseRules as rules;
ghost use Rattle.eif_system.specs.Kernel.{basic_names};
ghost use Rattle.eif_system.specs.WrittenTypes as the;
ghost use Rattle.eif_tree.specs.View.{class_view, type_view, types_from};
ghost use Rattle.eif_universe.specs.ClassesView.{classes_view};
ghost use Rattle.eif_written.specs.LentFaults.{fault_of_lent};
ghost use Rattle.eif_written.specs.LentTypes.{lent_type, owner_name, written_view};

use crate::classes::{Classes, is_formal};
use eif_base::limits::MOST_TYPE_NAMES;
use eif_base::{Code, FaultList, Memory, Name, Place};
use eif_tree::{ClassTree, Mark, TypeTree};
use eif_written::{LentFault, Owner, WrittenType, nested_types, push_where, written_types};
use std::alloc::Global;

/// A fault about the name of a written type.
fn type_fault<'t>(
    class: &'t ClassTree,
    written: &WrittenType<'t>,
    code: Code,
    case: u8,
    place: Place,
) -> LentFault<'t>
    ensures { let t = lent_type written.now.type_tree in
        fault_of_lent result ≡ fault_in (class_view class.now) (owner_name written.now.owner) code
        case place (the.type_name t) }
{
    LentFault {
        code,
        case,
        class: &class.name,
        owner: written.owner,
        place,
        about: &written.type_tree.name,
    }
}

/// VTCT.1: the name of the type is neither a formal nor a class.
fn push_unknown_class(
    alloc: Global,
    out: &mut FaultList,
    classes: &Classes<'_>,
    class: &ClassTree,
    written: &WrittenType<'_>,
) -> Result<(), Memory>
    ensures { OnOk result (out.new ≡ out.old
        ++ rules.unknown_class (classes_view classes.now) (class_view class.now)
        (owner_name written.now.owner) (lent_type written.now.type_tree)) }
{
    let name = &written.type_tree.name;
    let is_broken = !is_formal(class, name) && classes.number_of(name).is_none();
    let place = written.type_tree.name_place;
    let fault = type_fault(class, written, Code::Vtct, 1, place);
    push_where(alloc, out, is_broken, &fault)
}

fn count_types(types: &[TypeTree]) -> usize
    ensures { result ≡ length (the.type_list (types_from (map type_view types.now))) }
{
    types.len()
}

/// Whether the type has not as many actuals as its class has formals. A formal takes none.
fn has_wrong_count(classes: &Classes<'_>, class: &ClassTree, type_tree: &TypeTree) -> bool
    ensures { result ≡ rules.has_wrong_count (classes_view classes.now) (class_view class.now)
        (type_view type_tree.now) }
{
    let count = count_types(&type_tree.actuals);
    if is_formal(class, &type_tree.name) {
        return count != 0;
    }
    match classes.number_of(&type_tree.name) {
        Some(number) => count != classes.formal_count(number),
        None => false,
    }
}

/// XGEN.1: a wrong number of actuals.
fn push_wrong_count(
    alloc: Global,
    out: &mut FaultList,
    classes: &Classes<'_>,
    class: &ClassTree,
    written: &WrittenType<'_>,
) -> Result<(), Memory>
    ensures { OnOk result (out.new ≡ out.old
        ++ rules.wrong_count (classes_view classes.now) (class_view class.now)
        (owner_name written.now.owner) (lent_type written.now.type_tree)) }
{
    let is_broken = has_wrong_count(classes, class, written.type_tree);
    let place = written.type_tree.name_place;
    let fault = type_fault(class, written, Code::Xgen, 1, place);
    push_where(alloc, out, is_broken, &fault)
}

/// Whether the name is that of a class whose values are no references.
fn is_basic(name: &Name) -> bool
    ensures { result ≡ is_among basic_names name.now }
{
    let text = name.text();
    text == b"integer".as_slice()
        || text == b"boolean".as_slice()
        || text == b"character".as_slice()
}

fn is_detachable(mark: Mark) -> bool
    ensures { result ≡ rules.is_detachable mark }
{
    match mark {
        Mark::Detachable => true,
        _ => false,
    }
}

/// XMRK.1: a basic type is marked detachable.
fn push_wrong_mark(
    alloc: Global,
    out: &mut FaultList,
    class: &ClassTree,
    written: &WrittenType<'_>,
) -> Result<(), Memory>
    ensures { OnOk result (out.new ≡ out.old
        ++ rules.wrong_mark (class_view class.now) (owner_name written.now.owner)
        (lent_type written.now.type_tree)) }
{
    let type_tree = written.type_tree;
    let name = &type_tree.name;
    let is_broken = is_detachable(type_tree.mark) && !is_formal(class, name) && is_basic(name);
    let fault = type_fault(class, written, Code::Xmrk, 1, type_tree.place);
    push_where(alloc, out, is_broken, &fault)
}

/// Adds the faults of a type, but for those of the types in it.
fn push_nested_type_faults(
    alloc: Global,
    out: &mut FaultList,
    classes: &Classes<'_>,
    class: &ClassTree,
    written: &WrittenType<'_>,
) -> Result<(), Memory>
    ensures { OnOk result (out.new ≡ out.old
        ++ rules.nested_type_faults (classes_view classes.now) (class_view class.now)
        (owner_name written.now.owner) (lent_type written.now.type_tree)) }
{
    push_unknown_class(alloc, out, classes, class, written)?;
    push_wrong_count(alloc, out, classes, class, written)?;
    push_wrong_mark(alloc, out, class, written)
}

/// Adds the faults of these types, which stand in the owner.
fn push_faults_of_types(
    alloc: Global,
    out: &mut FaultList,
    classes: &Classes<'_>,
    class: &ClassTree,
    owner: Owner<'_>,
    types: &[&TypeTree],
) -> Result<(), Memory>
    ensures { OnOk result (out.new ≡ out.old
        ++ flat_map (rules.nested_type_faults (classes_view classes.now) (class_view class.now)
        (owner_name owner.entry)) (map lent_type types.now)) }
{
    'types: for type_tree in types {
        push_nested_type_faults(
            alloc,
            out,
            classes,
            class,
            &WrittenType { owner, type_tree },
        )?;
    }
    Ok(())
}

/// XLIM.4: the type has too many names.
fn push_long_type(
    alloc: Global,
    out: &mut FaultList,
    class: &ClassTree,
    written: &WrittenType<'_>,
    types: &[&TypeTree],
) -> Result<(), Memory>
    requires { map lent_type types.now ≡ the.nested (lent_type written.now.type_tree) }
    ensures { OnOk result (out.new ≡ out.old
        ++ rules.long_type (class_view class.now) (written_view written.now)) }
{
    let is_broken = types.len() > MOST_TYPE_NAMES as usize;
    let fault = type_fault(class, written, Code::Xlim, 4, written.type_tree.place);
    push_where(alloc, out, is_broken, &fault)
}

/// Adds the faults of a written type and of the types in it.
fn push_written_type_faults(
    alloc: Global,
    out: &mut FaultList,
    classes: &Classes<'_>,
    class: &ClassTree,
    written: &WrittenType<'_>,
) -> Result<(), Memory>
    ensures { OnOk result (out.new ≡ out.old
        ++ rules.written_type_faults (classes_view classes.now) (class_view class.now)
        (written_view written.now)) }
{
    let types = nested_types(alloc, written.type_tree)?;
    push_faults_of_types(alloc, out, classes, class, written.owner, &types)?;
    push_long_type(alloc, out, class, written, &types)
}

/// Adds the faults of the types that a class writes.
pub(crate) fn push_type_faults(
    alloc: Global,
    out: &mut FaultList,
    classes: &Classes<'_>,
    class: &ClassTree,
) -> Result<(), Memory>
    ensures { OnOk result (out.new ≡ out.old
        ++ flat_map (rules.written_type_faults (classes_view classes.now) (class_view class.now))
        (the.written_types (class_view class.now))) }
{
    let all_written = written_types(alloc, class)?;
    'types: for written in &all_written {
        push_written_type_faults(alloc, out, classes, class, written)?;
    }
    Ok(())
}
