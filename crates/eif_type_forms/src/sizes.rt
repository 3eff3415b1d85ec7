//! How many names types have, as far as they may.

ghost use Rattle.std.specs.Prelude.{◌≡◌, ◌≤◌, ◌+◌, suc, min};
ghost use Rattle.eif_base.specs.declared.limits.TheConstants.{MOST_TYPE_NAMES};
ghost use Rattle.eif_classes.specs.Types.{name_count, name_count_in};
ghost use Rattle.eif_type_forms.specs.View.{ty_view, actuals_view};

use crate::ty::Ty;
use eif_base::limits::MOST_TYPE_NAMES;

/// What stands for every greater count.
const TOO_MANY: u32 = MOST_TYPE_NAMES + 1;

/// The sum, or one more than a type may have where it is greater.
pub(crate) fn capped_sum(one: u32, two: u32) -> u32
    requires one { one ≤ suc MOST_TYPE_NAMES }
    requires two { two ≤ suc MOST_TYPE_NAMES }
    ensures { result ≡ min (suc MOST_TYPE_NAMES) (one + two) }
{
    if one + two < TOO_MANY {
        one + two
    } else {
        TOO_MANY
    }
}

/// How many names the type has, or one more than it may have where these are more.
#[cycle(counts)]
pub fn count_names(t: &Ty) -> u32
    ensures { result ≡ min (suc MOST_TYPE_NAMES) (name_count (ty_view t.now)) }
{
    match t {
        Ty::Class { actuals, .. } => capped_sum(1, count_all_names(actuals)),
        Ty::Formal { .. } => 1,
        Ty::Nothing => 0,
    }
}

/// The same of all of them.
#[cycle(counts)]
pub(crate) fn count_all_names(ts: &[Ty]) -> u32
    ensures { result ≡ min (suc MOST_TYPE_NAMES) (name_count_in (actuals_view ts.now)) }
{
    let mut total = 0;
    'types: for t in ts {
        total = capped_sum(total, count_names(t));
    }
    total
}
