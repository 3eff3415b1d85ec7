//! How many names types have with actuals put in, as far as they may.

ghost use Rattle.std.specs.Prelude.{◌≡◌, suc, min};
ghost use Rattle.eif_base.specs.declared.limits.TheConstants.{MOST_TYPE_NAMES};
ghost use Rattle.eif_classes.specs.Types.{name_count, name_count_in, put_in, put_in_all};
ghost use Rattle.eif_type_forms.specs.View.{ty_view, actuals_view};

use crate::sizes::{capped_sum, count_names};
use crate::ty::{Ty, type_at};

/// How many names the type has with the actuals put in, or one more than a type may have where
/// these are more.
#[cycle(counts)]
pub(crate) fn count_put(t: &Ty, actuals: &[Ty]) -> u32
    ensures { result ≡ min (suc MOST_TYPE_NAMES)
        (name_count (put_in (actuals_view actuals.now) (ty_view t.now))) }
{
    match t {
        Ty::Class { actuals: own, .. } => capped_sum(1, count_puts(own, actuals)),
        Ty::Formal { index, .. } => match type_at(actuals, *index) {
            Some(actual) => count_names(actual),
            None => 0,
        },
        Ty::Nothing => 0,
    }
}

/// The same of all of them.
#[cycle(counts)]
pub fn count_puts(ts: &[Ty], actuals: &[Ty]) -> u32
    ensures { result ≡ min (suc MOST_TYPE_NAMES)
        (name_count_in (put_in_all (actuals_view actuals.now) (actuals_view ts.now))) }
{
    let mut total = 0;
    'types: for t in ts {
        total = capped_sum(total, count_put(t, actuals));
    }
    total
}
