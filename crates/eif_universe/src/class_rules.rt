//! The faults of a class's formals, of its parents and of its size, and all faults of its text.

ghost use Rattle.std.specs.Prelude.{◌≡◌, ◌++◌, map, flat_map, OnOk};
ghost use Rattle.std.specs.List.{enumerate_from};
ghost use Rattle.std.specs.Option.{option_map};
ghost use Rattle.eif_rules.specs.UniverseRules as rules;
ghost use Rattle.eif_system.specs.WrittenTypes.{nested, present};
ghost use Rattle.eif_tree.specs.View.{class_view, formal_view, parent_view, type_view};
ghost use Rattle.eif_universe.specs.ClassesView.{classes_view};
ghost use Rattle.eif_written.specs.LentTypes.{lent_type};

use crate::classes::{Classes, has_formal, is_formal};
use crate::kernel::KERNEL_COUNT;
use crate::type_rules::push_type_faults;
use eif_base::limits::{MOST_FORMALS, MOST_PARENTS};
use eif_base::{Code, FaultList, Memory};
use eif_tree::{ClassTree, FormalTree, ParentClause, TypeTree};
use eif_written::{LentFault, nested_types, push_where};
use std::alloc::Global;

/// VCFG.1: a formal has the name of a class.
fn push_formal_names_class(
    alloc: Global,
    out: &mut FaultList,
    classes: &Classes<'_>,
    class: &ClassTree,
    formal: &FormalTree,
) -> Result<(), Memory>
    ensures { OnOk result (out.new ≡ out.old
        ++ rules.formal_names_class (classes_view classes.now) (class_view class.now)
        (formal_view formal.now)) }
{
    let is_broken = classes.number_of(&formal.name).is_some();
    let fault = LentFault::at(class, Code::Vcfg, 1, formal.place, &formal.name);
    push_where(alloc, out, is_broken, &fault)
}

/// VCFG.2: an earlier formal has the name.
fn push_repeated_formal(
    alloc: Global,
    out: &mut FaultList,
    class: &ClassTree,
    earlier: &[FormalTree],
    formal: &FormalTree,
) -> Result<(), Memory>
    ensures { OnOk result (out.new ≡ out.old
        ++ rules.repeated_formal (class_view class.now) (map formal_view earlier.now)
        (formal_view formal.now)) }
{
    let is_broken = has_formal(earlier, &formal.name);
    let fault = LentFault::at(class, Code::Vcfg, 2, formal.place, &formal.name);
    push_where(alloc, out, is_broken, &fault)
}

/// VCFG.3: a type of a constraint names a formal.
fn push_formal_in_constraint(
    alloc: Global,
    out: &mut FaultList,
    class: &ClassTree,
    type_tree: &TypeTree,
) -> Result<(), Memory>
    ensures { OnOk result (out.new ≡ out.old
        ++ rules.formal_in_constraint (class_view class.now) (type_view type_tree.now)) }
{
    let name = &type_tree.name;
    let is_broken = is_formal(class, name);
    let fault = LentFault::at(class, Code::Vcfg, 3, type_tree.name_place, name);
    push_where(alloc, out, is_broken, &fault)
}

fn push_formals_in_constraint(
    alloc: Global,
    out: &mut FaultList,
    class: &ClassTree,
    types: &[&TypeTree],
) -> Result<(), Memory>
    ensures { OnOk result (out.new ≡ out.old
        ++ flat_map (rules.formal_in_constraint (class_view class.now)) (map lent_type types.now)) }
{
    'types: for type_tree in types {
        push_formal_in_constraint(alloc, out, class, type_tree)?;
    }
    Ok(())
}

fn push_constraint_faults(
    alloc: Global,
    out: &mut FaultList,
    class: &ClassTree,
    constraint: &Option<TypeTree>,
) -> Result<(), Memory>
    ensures { OnOk result (out.new ≡ out.old
        ++ flat_map (rules.formal_in_constraint (class_view class.now))
        (flat_map nested (present (option_map type_view constraint.now)))) }
{
    match constraint {
        Some(type_tree) => {
            let types = nested_types(alloc, type_tree)?;
            push_formals_in_constraint(alloc, out, class, &types)
        }
        None => Ok(()),
    }
}

/// Adds the faults of a formal that stands after these.
fn push_formal_faults(
    alloc: Global,
    out: &mut FaultList,
    classes: &Classes<'_>,
    class: &ClassTree,
    earlier: &[FormalTree],
    formal: &FormalTree,
) -> Result<(), Memory>
    ensures { OnOk result (out.new ≡ out.old
        ++ rules.formal_faults (classes_view classes.now) (class_view class.now)
        (map formal_view earlier.now) (formal_view formal.now)) }
{
    push_formal_names_class(alloc, out, classes, class, formal)?;
    push_repeated_formal(alloc, out, class, earlier, formal)?;
    push_constraint_faults(alloc, out, class, &formal.constraint)
}

fn push_faults_of_formals(
    alloc: Global,
    out: &mut FaultList,
    classes: &Classes<'_>,
    class: &ClassTree,
) -> Result<(), Memory>
    ensures { let c = class_view class.now in
        OnOk result (out.new ≡ out.old
        ++ flat_map (rules.numbered_formal_faults (classes_view classes.now) c)
        (enumerate_from 0 c.formals)) }
{
    let formals = class.formals.as_slice();
    'formals: for (i, formal) in formals.iter().enumerate() {
        push_formal_faults(alloc, out, classes, class, &formals[..i], formal)?;
    }
    Ok(())
}

/// VTCT.2: the parent is a formal.
fn push_formal_parent(
    alloc: Global,
    out: &mut FaultList,
    class: &ClassTree,
    clause: &ParentClause,
) -> Result<(), Memory>
    ensures { OnOk result (out.new ≡ out.old
        ++ rules.formal_parent (class_view class.now) (parent_view clause.now)) }
{
    let parent = &clause.parent;
    let is_broken = is_formal(class, &parent.name);
    let fault = LentFault::at(class, Code::Vtct, 2, parent.name_place, &parent.name);
    push_where(alloc, out, is_broken, &fault)
}

/// Whether the number is that of a kernel class other than ANY.
fn is_closed_class(number: Option<u32>) -> bool
    ensures { result ≡ rules.is_closed_class number }
{
    match number {
        Some(number) => 0 < number && number < KERNEL_COUNT,
        None => false,
    }
}

/// XKER.1: the parent is a kernel class other than ANY.
fn push_kernel_parent(
    alloc: Global,
    out: &mut FaultList,
    classes: &Classes<'_>,
    class: &ClassTree,
    clause: &ParentClause,
) -> Result<(), Memory>
    ensures { OnOk result (out.new ≡ out.old
        ++ rules.kernel_parent (classes_view classes.now) (class_view class.now)
        (parent_view clause.now)) }
{
    let parent = &clause.parent;
    let is_broken = is_closed_class(classes.denoted(class, &parent.name));
    let fault = LentFault::at(class, Code::Xker, 1, parent.name_place, &parent.name);
    push_where(alloc, out, is_broken, &fault)
}

fn push_faults_of_parents(
    alloc: Global,
    out: &mut FaultList,
    classes: &Classes<'_>,
    class: &ClassTree,
) -> Result<(), Memory>
    ensures { let c = class_view class.now in
        OnOk result (out.new ≡ out.old
        ++ flat_map (rules.parent_faults (classes_view classes.now) c) c.parents) }
{
    'parents: for clause in &class.parents {
        push_formal_parent(alloc, out, class, clause)?;
        push_kernel_parent(alloc, out, classes, class, clause)?;
    }
    Ok(())
}

/// XLIM.1: too many parent clauses.
fn push_many_parents(alloc: Global, out: &mut FaultList, class: &ClassTree) -> Result<(), Memory>
    ensures { OnOk result (out.new ≡ out.old ++ rules.many_parents (class_view class.now)) }
{
    let is_broken = class.parents.as_slice().len() > MOST_PARENTS as usize;
    push_where(alloc, out, is_broken, &LentFault::of(class, Code::Xlim, 1))
}

/// XLIM.3: too many formals.
fn push_many_formals(alloc: Global, out: &mut FaultList, class: &ClassTree) -> Result<(), Memory>
    ensures { OnOk result (out.new ≡ out.old ++ rules.many_formals (class_view class.now)) }
{
    let is_broken = class.formals.as_slice().len() > MOST_FORMALS as usize;
    push_where(alloc, out, is_broken, &LentFault::of(class, Code::Xlim, 3))
}

/// Adds the faults of a class's types, of its formals, of its parents and of its size.
pub(crate) fn push_text_faults(
    alloc: Global,
    out: &mut FaultList,
    classes: Classes<'_>,
    class: &ClassTree,
) -> Result<(), Memory>
    ensures { OnOk result (out.new ≡ out.old
        ++ rules.text_faults (classes_view classes.entry) (class_view class.now)) }
{
    push_type_faults(alloc, out, &classes, class)?;
    push_faults_of_formals(alloc, out, &classes, class)?;
    push_faults_of_parents(alloc, out, &classes, class)?;
    push_many_parents(alloc, out, class)?;
    push_many_formals(alloc, out, class)
}
