//! The sizes of the types of a signature.

ghost use Rattle.std.specs.Prelude.{◌≡◌, map};
ghost use Rattle.std.specs.List.{list_any};
ghost use Rattle.eif_feature_rules.specs.JoinRules as rules;
ghost use Rattle.eif_signatures.specs.SignatureViews as views;
ghost use Rattle.eif_signatures.specs.SignatureViews.{signature_view};
ghost use Rattle.eif_type_forms.specs.View.{ty_view};

use crate::signature::Signature;
use eif_base::limits::MOST_TYPE_NAMES;
use eif_type_forms::{Ty, count_names};

/// Whether the type has more names than a type may have.
fn is_large(t: &Ty) -> bool
    ensures { result ≡ views.is_large (ty_view t.now) }
{
    count_names(t) > MOST_TYPE_NAMES
}

/// Whether one of the types has more names than a type may have.
fn has_large(types: &[Ty]) -> bool
    ensures { result ≡ list_any views.is_large (map ty_view types.now) }
{
    'types: for t in types {
        if is_large(t) {
            return true;
        }
    }
    false
}

/// Whether a type of the signature has more names than a type may have.
pub fn has_large_type(signature: &Signature) -> bool
    ensures { result ≡ rules.has_large_type (signature_view signature.now) }
{
    has_large(&signature.arguments)
        || match &signature.result {
            Some(t) => is_large(t),
            None => false,
        }
}
