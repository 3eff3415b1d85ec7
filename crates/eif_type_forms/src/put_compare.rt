//! Equality of types with actuals put in. Nothing is built.

ghost use Rattle.std.specs.Prelude.{◌≡◌};
ghost use Rattle.eif_classes.specs.Types as types;
ghost use Rattle.eif_type_forms.specs.View.{ty_view, actuals_view};

use crate::compare::{is_nothing, same_marked};
use crate::marks::same_mark;
use crate::ty::{Ty, type_at};

/// Whether the type with the actuals put in is the other.
#[cycle(same)]
pub fn same_put(t: &Ty, actuals: &[Ty], other: &Ty) -> bool
    ensures { result ≡ types.same_type
        (types.put_in (actuals_view actuals.now) (ty_view t.now)) (ty_view other.now) }
{
    match t {
        Ty::Class {
            class_id,
            mark,
            actuals: own,
        } => match other {
            Ty::Class {
                class_id: other_id,
                mark: other_mark,
                actuals: others,
            } => {
                class_id.0 == other_id.0
                    && same_mark(*mark, *other_mark)
                    && same_puts(own, actuals, others)
            }
            _ => false,
        },
        Ty::Formal { index, mark } => match type_at(actuals, *index) {
            Some(actual) => same_marked(*mark, actual, other),
            None => is_nothing(other),
        },
        Ty::Nothing => is_nothing(other),
    }
}

/// Whether the types with the actuals put in each are as many as the others, and equal in their
/// order.
#[cycle(same)]
pub fn same_puts(ts: &[Ty], actuals: &[Ty], others: &[Ty]) -> bool
    ensures { result ≡ types.same_actuals
        (types.put_in_all (actuals_view actuals.now) (actuals_view ts.now))
        (actuals_view others.now) }
{
    if ts.len() != others.len() {
        return false;
    }
    'types: for (i, t) in ts.iter().enumerate() {
        if !same_put(t, actuals, &others[i]) {
            return false;
        }
    }
    true
}
