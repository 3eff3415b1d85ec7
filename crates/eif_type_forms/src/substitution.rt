//! Substitution within the limit of a type's size.

ghost use Rattle.std.specs.Prelude.{◌≡◌, ◌≤◌, ◌<◌, IfOk, IfErr};
ghost use Rattle.eif_base.specs.declared.limits.TheConstants.{MOST_TYPE_NAMES};
ghost use Rattle.eif_classes.specs.Types.{name_count, put_in};
ghost use Rattle.eif_type_forms.specs.declared.substitution.SubstError.TheVariants as error;
ghost use Rattle.eif_type_forms.specs.View.{ty_view, actuals_view};

use crate::put::put_type;
use crate::put_sizes::count_put;
use crate::ty::Ty;
use eif_base::Memory;
use eif_base::limits::MOST_TYPE_NAMES;
use std::alloc::Global;

/// Why actuals were not put in.
#[derive(Clone, Copy, Drop)]
pub enum SubstError {
    /// The type would have more names than a type may have.
    TooLarge,
    /// There was not enough memory.
    Memory,
}

impl From<Memory> for SubstError {
    ghost use Rattle.std.specs.Prelude.{◌≡◌};
    ghost use Rattle.eif_type_forms.specs.declared.substitution.SubstError.TheVariants as error;

    ghost from_gives = { λ _ r. r ≡ error.Memory };

    fn from(_error: Memory) -> SubstError {
        SubstError::Memory
    }
}

/// The type with the actuals in place of the formals, each with the mark of its formal.
pub fn substitute(alloc: Global, t: &Ty, actuals: &[Ty]) -> Result<Ty, SubstError>
    ensures put { IfOk result (λ s. ty_view s ≡ put_in (actuals_view actuals.now) (ty_view t.now)) }
    ensures fits { IfOk result (λ s. name_count (ty_view s) ≤ MOST_TYPE_NAMES) }
    ensures too_large { IfErr result (λ e. e ≡ error.TooLarge
        → MOST_TYPE_NAMES < name_count (put_in (actuals_view actuals.now) (ty_view t.now))) }
    ensures memory { IfErr result (λ e. e ≡ error.Memory
        → name_count (put_in (actuals_view actuals.now) (ty_view t.now)) ≤ MOST_TYPE_NAMES) }
{
    if MOST_TYPE_NAMES < count_put(t, actuals) {
        return Err(SubstError::TooLarge);
    }
    Ok(put_type(alloc, t, actuals)?)
}
