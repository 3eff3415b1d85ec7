//! The types that a class text writes.

ghost use Rattle.std.specs.Prelude.{◌≡◌, ◌<◌, ◌^◌, length, map, IfOk, IfSome};
ghost use Rattle.std.specs.Option.{option_map};
ghost use Rattle.eif_classes.specs.Resolution as the;
ghost use Rattle.eif_tree.specs.View.{class_view, type_view, types_from};
ghost use Rattle.eif_type_forms.specs.View.{ty_view, actuals_view};
ghost use Rattle.eif_universe.specs.Universes.{classes_of};

use crate::ty::Ty;
use eif_base::{ClassId, Memory, Name};
use eif_tree::{ClassTree, FormalTree, Mark, TypeTree};
use eif_universe::Universe;
use std::alloc::Global;

/// A class type is attached where no mark is written.
fn class_mark(mark: Mark) -> Mark
    ensures { result ≡ the.class_mark mark }
{
    match mark {
        Mark::Plain => Mark::Attached,
        _ => mark,
    }
}

/// The place of the name among the formals of the class, from 0.
fn formal_number(class: &ClassTree, name: &Name) -> Option<usize>
    ensures number { result ≡ the.formal_number (class_view class.now) name.now }
    ensures within { IfSome result (λ i. i < length class.now.formals.items) }
{
    class.formals.iter().position(|formal| formal.name == *name)
}

/// A class type, or NONE where there is no class.
fn class_type(class_id: Option<ClassId>, mark: Mark, actuals: Vec<Ty>) -> Ty
    ensures { ty_view result
        ≡ the.type_of_class (option_map (λ k. k.0) class_id) mark (actuals_view actuals.items) }
{
    match class_id {
        Some(class_id) => Ty::Class {
            class_id,
            mark: class_mark(mark),
            actuals,
        },
        None => Ty::Nothing,
    }
}

/// What the type means in the class, which is one of the universe or stands by itself. NONE where
/// its name is that of no formal and of no class.
#[cycle(resolve)]
pub fn resolve(
    alloc: Global,
    u: &Universe,
    class: &ClassTree,
    tree: &TypeTree,
) -> Result<Ty, Memory>
    requires { length class.now.formals.items < 2 ^ 32 }
    ensures { IfOk result (λ t. ty_view t
        ≡ the.resolved (classes_of u.now) (class_view class.now) (type_view tree.now)) }
{
    match formal_number(class, &tree.name) {
        Some(index) => Ok(Ty::Formal {
            index: index as u32,
            mark: tree.mark,
        }),
        None => {
            let actuals = resolve_all(alloc, u, class, &tree.actuals)?;
            Ok(class_type(u.class_named(&tree.name), tree.mark, actuals))
        }
    }
}

/// What the types mean in the class, in their order.
#[cycle(resolve)]
pub fn resolve_all(
    alloc: Global,
    u: &Universe,
    class: &ClassTree,
    trees: &[TypeTree],
) -> Result<Vec<Ty>, Memory>
    requires { length class.now.formals.items < 2 ^ 32 }
    ensures { IfOk result (λ ts. actuals_view ts.items
        ≡ the.all_resolved (classes_of u.now) (class_view class.now)
        (types_from (map type_view trees.now))) }
{
    let mut types = Vec::with_capacity(alloc, trees.len())?;
    'types: for tree in trees {
        types.push(resolve(alloc, u, class, tree)?)?;
    }
    Ok(types)
}
