//! Actuals put in place of formals.

ghost use Rattle.std.specs.Prelude.{◌≡◌, IfOk};
ghost use Rattle.eif_classes.specs.Types.{put_in, put_in_all};
ghost use Rattle.eif_type_forms.specs.View.{ty_view, actuals_view};

use crate::copies::copy_marked;
use crate::ty::{Ty, type_at};
use eif_base::Memory;
use std::alloc::Global;

/// The type with the actuals in place of the formals, each with the mark of its formal. A formal
/// past the actuals becomes NONE.
#[cycle(put)]
pub fn put_type(alloc: Global, t: &Ty, actuals: &[Ty]) -> Result<Ty, Memory>
    ensures { IfOk result (λ put. ty_view put ≡ put_in (actuals_view actuals.now) (ty_view t.now)) }
{
    match t {
        Ty::Class {
            class_id,
            mark,
            actuals: own,
        } => {
            let own = put_types(alloc, own, actuals)?;
            Ok(Ty::Class {
                class_id: *class_id,
                mark: *mark,
                actuals: own,
            })
        }
        Ty::Formal { index, mark } => match type_at(actuals, *index) {
            Some(actual) => copy_marked(alloc, *mark, actual),
            None => Ok(Ty::Nothing),
        },
        Ty::Nothing => Ok(Ty::Nothing),
    }
}

/// The types with the actuals put in each.
#[cycle(put)]
pub fn put_types(alloc: Global, ts: &[Ty], actuals: &[Ty]) -> Result<Vec<Ty>, Memory>
    ensures { IfOk result (λ puts.
        actuals_view puts.items ≡ put_in_all (actuals_view actuals.now) (actuals_view ts.now)) }
{
    let mut puts = Vec::with_capacity(alloc, ts.len())?;
    'types: for t in ts {
        puts.push(put_type(alloc, t, actuals)?)?;
    }
    Ok(puts)
}
