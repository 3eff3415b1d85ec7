//! Equality of types.

ghost use Rattle.std.specs.Prelude.{◌≡◌};
ghost use Rattle.eif_classes.specs.Types as types;
ghost use Rattle.eif_type_forms.specs.View.{ty_view, actuals_view};

use crate::marks::{marked_mark, same_mark};
use crate::ty::Ty;
use eif_tree::Mark;

/// Whether the types are equal.
#[cycle(same)]
pub fn same_type(one: &Ty, two: &Ty) -> bool
    ensures { result ≡ types.same_type (ty_view one.now) (ty_view two.now) }
{
    match one {
        Ty::Class {
            class_id,
            mark,
            actuals,
        } => match two {
            Ty::Class {
                class_id: other_id,
                mark: other_mark,
                actuals: others,
            } => {
                class_id.0 == other_id.0
                    && same_mark(*mark, *other_mark)
                    && same_types(actuals, others)
            }
            _ => false,
        },
        Ty::Formal { index, mark } => match two {
            Ty::Formal {
                index: other_index,
                mark: other_mark,
            } => *index == *other_index && same_mark(*mark, *other_mark),
            _ => false,
        },
        Ty::Nothing => matches!(two, Ty::Nothing),
    }
}

/// Whether the types are as many, and equal in their order.
#[cycle(same)]
pub fn same_types(ones: &[Ty], twos: &[Ty]) -> bool
    ensures { result ≡ types.same_actuals (actuals_view ones.now) (actuals_view twos.now) }
{
    if ones.len() != twos.len() {
        return false;
    }
    'types: for (i, one) in ones.iter().enumerate() {
        if !same_type(one, &twos[i]) {
            return false;
        }
    }
    true
}

/// Whether the type with that mark is the other.
pub(crate) fn same_marked(mark: Mark, t: &Ty, other: &Ty) -> bool
    ensures { result ≡ types.same_type (types.marked mark (ty_view t.now)) (ty_view other.now) }
{
    match t {
        Ty::Class {
            class_id,
            mark: own,
            actuals,
        } => match other {
            Ty::Class {
                class_id: other_id,
                mark: other_mark,
                actuals: others,
            } => {
                class_id.0 == other_id.0
                    && same_mark(marked_mark(mark, *own), *other_mark)
                    && same_types(actuals, others)
            }
            _ => false,
        },
        Ty::Formal { index, mark: own } => match other {
            Ty::Formal {
                index: other_index,
                mark: other_mark,
            } => *index == *other_index && same_mark(marked_mark(mark, *own), *other_mark),
            _ => false,
        },
        Ty::Nothing => is_nothing(other),
    }
}

/// Whether the type is NONE.
pub(crate) fn is_nothing(t: &Ty) -> bool
    ensures { result ≡ types.same_type types.none_type (ty_view t.now) }
{
    matches!(t, Ty::Nothing)
}
