//! Inheritance as a graph of class numbers.

ghost use Rattle.std.specs.Prelude.{◌≡◌, [], ◌∷◌, if◌then◌else◌, map, IfOk};
ghost use Rattle.std.specs.List.{filter_map};
ghost use Rattle.std.specs.Str.{bytes_eq};
ghost use Rattle.eif_ancestry.specs.Ancestries.{number_graph};
ghost use Rattle.eif_system.specs.Inheritance as the;
ghost use Rattle.eif_system.specs.Kernel.{any_name};
ghost use Rattle.eif_tree.specs.View.{class_view, parent_view};
ghost use Rattle.eif_universe.specs.ClassesView.{classes_view};

use crate::classes::Classes;
use eif_base::{Memory, Name};
use eif_tree::{ClassTree, ParentClause};
use std::alloc::Global;

/// The class of a parent clause.
pub(crate) fn parent_number(
    classes: &Classes<'_>,
    class: &ClassTree,
    clause: &ParentClause,
) -> Option<u32>
    ensures { result ≡ the.parent_number (classes_view classes.now) (class_view class.now)
        (parent_view clause.now) }
{
    classes.denoted(class, &clause.parent.name)
}

/// The classes of parent clauses of the class.
fn classes_of_clauses(
    alloc: Global,
    classes: &Classes<'_>,
    class: &ClassTree,
    clauses: &[ParentClause],
) -> Result<Vec<u32>, Memory>
    ensures { IfOk result (λ v. v.items ≡ filter_map
        (the.parent_number (classes_view classes.now) (class_view class.now))
        (map parent_view clauses.now)) }
{
    let mut parents = Vec::new(alloc);
    'clauses: for clause in clauses {
        match parent_number(classes, class, clause) {
            Some(parent) => parents.push(parent)?,
            None => {}
        }
    }
    Ok(parents)
}

/// The class of the clause ANY, which a class has that writes none, but for ANY itself.
fn unwritten_parents(
    alloc: Global,
    classes: &Classes<'_>,
    any: &Name,
    class: &ClassTree,
) -> Result<Vec<u32>, Memory>
    requires { any.now ≡ any_name }
    ensures { IfOk result (λ v. v.items ≡ filter_map
        (the.parent_number (classes_view classes.now) (class_view class.now))
        (if bytes_eq class.now.name any_name then [] else the.any_clause ∷ [])) }
{
    let mut parents = Vec::new(alloc);
    if class.name != *any {
        match classes.denoted(class, any) {
            Some(parent) => parents.push(parent)?,
            None => {}
        }
    }
    Ok(parents)
}

/// The classes of the class's parent clauses, in their order.
fn parents_of(
    alloc: Global,
    classes: &Classes<'_>,
    any: &Name,
    class: &ClassTree,
) -> Result<Vec<u32>, Memory>
    requires { any.now ≡ any_name }
    ensures { IfOk result (λ v. v.items
        ≡ the.parent_numbers (classes_view classes.now) (class_view class.now)) }
{
    if class.parents.is_empty() {
        unwritten_parents(alloc, classes, any, class)
    } else {
        classes_of_clauses(alloc, classes, class, &class.parents)
    }
}

/// For each class the classes of its parent clauses.
pub(crate) fn inheritance_graph(
    alloc: Global,
    classes: &Classes<'_>,
) -> Result<Vec<Vec<u32>>, Memory>
    ensures { IfOk result (λ graph. number_graph graph.items
        ≡ the.graph_of (classes_view classes.now)) }
{
    let any = Name::from_bytes(alloc, b"any")?;
    let mut graph = Vec::with_capacity(alloc, classes.trees.len())?;
    'classes: for class in classes.trees {
        graph.push(parents_of(alloc, classes, &any, class)?)?;
    }
    Ok(graph)
}
