//! Types once more.

ghost use Rattle.std.specs.Prelude.{◌≡◌, IfOk};
ghost use Rattle.eif_classes.specs.Types.{marked};
ghost use Rattle.eif_type_forms.specs.View.{ty_view, actuals_view};

use crate::marks::marked_mark;
use crate::ty::Ty;
use eif_base::Memory;
use eif_tree::Mark;
use std::alloc::Global;

/// The type once more.
#[cycle(copies)]
pub fn copy_type(alloc: Global, t: &Ty) -> Result<Ty, Memory>
    ensures { IfOk result (λ copy. ty_view copy ≡ ty_view t.now) }
{
    match t {
        Ty::Class {
            class_id,
            mark,
            actuals,
        } => {
            let actuals = copy_types(alloc, actuals)?;
            Ok(Ty::Class {
                class_id: *class_id,
                mark: *mark,
                actuals,
            })
        }
        Ty::Formal { index, mark } => Ok(Ty::Formal {
            index: *index,
            mark: *mark,
        }),
        Ty::Nothing => Ok(Ty::Nothing),
    }
}

/// The types once more, in their order.
#[cycle(copies)]
pub fn copy_types(alloc: Global, ts: &[Ty]) -> Result<Vec<Ty>, Memory>
    ensures { IfOk result (λ copies. actuals_view copies.items ≡ actuals_view ts.now) }
{
    let mut copies = Vec::with_capacity(alloc, ts.len())?;
    'types: for t in ts {
        copies.push(copy_type(alloc, t)?)?;
    }
    Ok(copies)
}

/// The type once more, with that mark.
pub(crate) fn copy_marked(alloc: Global, mark: Mark, t: &Ty) -> Result<Ty, Memory>
    ensures { IfOk result (λ copy. ty_view copy ≡ marked mark (ty_view t.now)) }
{
    match t {
        Ty::Class {
            class_id,
            mark: own,
            actuals,
        } => {
            let actuals = copy_types(alloc, actuals)?;
            Ok(Ty::Class {
                class_id: *class_id,
                mark: marked_mark(mark, *own),
                actuals,
            })
        }
        Ty::Formal { index, mark: own } => Ok(Ty::Formal {
            index: *index,
            mark: marked_mark(mark, *own),
        }),
        Ty::Nothing => Ok(Ty::Nothing),
    }
}
