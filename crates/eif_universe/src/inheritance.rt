//! The rules on whom a class inherits from.

ghost use Rattle.std.specs.Prelude.{◌≡◌, ℕ, ◌<◌, ◌↔◌, IsTrue, List, Some, length, map, OnOk};
ghost use Rattle.eif_ancestry.specs.Ancestries.{AreAncestries};
ghost use Rattle.eif_base.specs.Appends.{Appends, SomeOf};
ghost use Rattle.eif_rules.specs.UniverseRules.{HasManyAncestors, IsOwnAncestor};
ghost use Rattle.eif_system.specs.Graph.{Reaches};
ghost use Rattle.eif_system.specs.Inheritance.{graph_of};
ghost use Rattle.eif_system.specs.Inheritance as the;
ghost use Rattle.eif_tree.specs.View.{class_view, parent_view};
ghost use Rattle.eif_universe.specs.ClassesView.{classes_view};
ghost use Rattle.eif_universe.specs.Universes.{InheritanceBroken};

use crate::classes::Classes;
use crate::graph::parent_number;
use eif_ancestry::Ancestors;
use eif_base::limits::MOST_ANCESTORS;
use eif_base::{Code, FaultList, Memory};
use eif_tree::{ClassTree, ParentClause};
use eif_written::{LentFault, push_where};
use std::alloc::Global;

/// Whether the class `d` is the class `a` or descends from it.
pub(crate) fn reaches(ancestors: &[Ancestors], d: u32, a: u32) -> bool
    requires { d < length ancestors.now }
    ensures { (g : List (List ℕ)) → AreAncestries g ancestors.now → IsTrue result ↔ Reaches g d a }
{
    d == a || ancestors[d as usize].has(a)
}

/// Whether the class of the parent clause is the class `d` or descends from it.
fn is_own_ancestor(
    classes: &Classes<'_>,
    ancestors: &[Ancestors],
    d: u32,
    class: &ClassTree,
    clause: &ParentClause,
) -> bool
    requires { AreAncestries (graph_of (classes_view classes.now)) ancestors.now }
    ensures { IsTrue result ↔ ((k : ℕ)
        × (the.parent_number (classes_view classes.now) (class_view class.now)
        (parent_view clause.now)
        ≡ Some k)
        × Reaches (graph_of (classes_view classes.now)) k d) }
{
    match parent_number(classes, class, clause) {
        Some(parent) => reaches(ancestors, parent, d),
        None => false,
    }
}

/// Adds the fault of a parent clause by which the class `d` is its own ancestor.
fn push_own_ancestor(
    alloc: Global,
    out: &mut FaultList,
    classes: &Classes<'_>,
    ancestors: &[Ancestors],
    d: u32,
    class: &ClassTree,
    clause: &ParentClause,
) -> Result<(), Memory>
    requires { AreAncestries (graph_of (classes_view classes.now)) ancestors.now }
    ensures { OnOk result (Appends out.old out.new
        (IsOwnAncestor (classes_view classes.now) d (class_view class.now)
        (parent_view clause.now))) }
{
    let is_broken = is_own_ancestor(classes, ancestors, d, class, clause);
    let parent = &clause.parent;
    let fault = LentFault::at(class, Code::Vhpr, 1, parent.name_place, &parent.name);
    push_where(alloc, out, is_broken, &fault)?;
    Ok(())
}

/// Adds the faults of the parent clauses by which the class `d` is its own ancestor.
fn push_own_ancestors(
    alloc: Global,
    out: &mut FaultList,
    classes: &Classes<'_>,
    ancestors: &[Ancestors],
    d: u32,
    class: &ClassTree,
    clauses: &[ParentClause],
) -> Result<(), Memory>
    requires { AreAncestries (graph_of (classes_view classes.now)) ancestors.now }
    ensures { OnOk result (Appends out.old out.new (SomeOf (map parent_view clauses.now)
        (λ i p f. IsOwnAncestor (classes_view classes.now) d (class_view class.now) p f))) }
{
    'clauses: for clause in clauses {
        push_own_ancestor(alloc, out, classes, ancestors, d, class, clause)?;
    }
    Ok(())
}

/// Adds the fault of the class `d` with too many proper ancestors.
fn push_many_ancestors(
    alloc: Global,
    out: &mut FaultList,
    classes: &Classes<'_>,
    ancestors: &[Ancestors],
    d: u32,
    class: &ClassTree,
) -> Result<(), Memory>
    requires rows { AreAncestries (graph_of (classes_view classes.now)) ancestors.now }
    requires class { d < length ancestors.now }
    ensures { OnOk result
        (Appends out.old out.new
        (HasManyAncestors (classes_view classes.now) d (class_view class.now))) }
{
    let are_many = ancestors[d as usize].count() > MOST_ANCESTORS as usize;
    push_where(alloc, out, are_many, &LentFault::of(class, Code::Xlim, 2))?;
    Ok(())
}

/// Adds the faults of whom the class `d` inherits from.
pub(crate) fn push_inheritance_faults(
    alloc: Global,
    out: &mut FaultList,
    classes: &Classes<'_>,
    ancestors: &[Ancestors],
    d: u32,
    class: &ClassTree,
) -> Result<(), Memory>
    requires rows { AreAncestries (graph_of (classes_view classes.now)) ancestors.now }
    requires class { d < length ancestors.now }
    ensures { OnOk result
        (Appends out.old out.new
        (InheritanceBroken (classes_view classes.now) d (class_view class.now))) }
{
    push_own_ancestors(alloc, out, classes, ancestors, d, class, &class.parents)?;
    push_many_ancestors(alloc, out, classes, ancestors, d, class)?;
    Ok(())
}
