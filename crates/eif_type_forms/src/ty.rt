//! Types over the formals of a class.

ghost use Rattle.std.specs.Prelude.{◌≡◌, IfOk, IfSome, IfNone};
ghost use Rattle.eif_classes.specs.Types.{actual_at, formals_from, none_type};
ghost use Rattle.eif_type_forms.specs.View.{ty_view, actuals_view};

use eif_base::{ClassId, Memory};
use eif_tree::Mark;
use std::alloc::Global;

/// A type over the formals of a class. The mark of a class type is never plain. A formal is named
/// by its place among the formals of the class, from 0. `Nothing` is NONE, the type of `Void`.
#[derive(Drop)]
pub enum Ty {
    Class {
        class_id: ClassId,
        mark: Mark,
        actuals: Vec<Ty>,
    },
    Formal {
        index: u32,
        mark: Mark,
    },
    Nothing,
}

/// The type in that place, from 0, if there is one.
pub fn type_at(types: &[Ty], index: u32) -> Option<&Ty>
    ensures some { IfSome result (λ t. actual_at (actuals_view types.now) index ≡ ty_view t.now) }
    ensures none { IfNone result (actual_at (actuals_view types.now) index ≡ none_type) }
{
    if (index as usize) < types.len() {
        Some(&types[index as usize])
    } else {
        None
    }
}

/// So many formals, plain.
pub fn own_formals(alloc: Global, count: u32) -> Result<Vec<Ty>, Memory>
    ensures { IfOk result (λ v. actuals_view v.items ≡ formals_from 0 count) }
{
    let mut formals = Vec::with_capacity(alloc, count as usize)?;
    'formals: for index in 0..count {
        formals.push(Ty::Formal {
            index,
            mark: Mark::Plain,
        })?;
    }
    Ok(formals)
}
