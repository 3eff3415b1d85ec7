//! One signature beside another.

ghost use Rattle.std.specs.Prelude.{◌≡◌, List, length, true};
ghost use Rattle.eif_feature_rules.specs.SignaturePairs as the;
ghost use Rattle.eif_signatures.specs.SignatureViews.{signature_view};
ghost use Rattle.eif_tree.specs.Tree.{ClassT};
ghost use Rattle.eif_types.specs.TypeTables.{AreTypesOf};

use crate::signature::Signature;
use eif_base::ClassId;
use eif_type_forms::{same_type, same_types};
use eif_types::Types;

/// Whether both have as many arguments.
pub fn have_equal_count(one: &Signature, two: &Signature) -> bool
    ensures { result ≡ the.have_equal_count (signature_view one.now) (signature_view two.now) }
{
    one.arguments.len() == two.arguments.len()
}

/// Whether the arguments of both, which have as many, are of equal types.
pub fn have_equal_arguments(one: &Signature, two: &Signature) -> bool
    requires { the.have_equal_count (signature_view one.now) (signature_view two.now) ≡ true }
    ensures { result ≡ the.have_equal_arguments (signature_view one.now) (signature_view two.now) }
{
    same_types(&one.arguments, &two.arguments)
}

/// Whether both have a result, or neither has.
pub fn are_of_one_form(one: &Signature, two: &Signature) -> bool
    ensures { result ≡ the.are_of_one_form (signature_view one.now) (signature_view two.now) }
{
    one.result.is_some() == two.result.is_some()
}

/// Whether the result of the first conforms to that of the second in the class, where both have one.
pub fn has_conforming_result(
    types: &Types,
    context: ClassId,
    one: &Signature,
    two: &Signature,
) -> bool
    ensures { (u : List ClassT) → AreTypesOf u types.now → result ≡ the.has_conforming_result u
        context.0 (signature_view one.now) (signature_view two.now) }
{
    match &one.result {
        Some(a) => match &two.result {
            Some(b) => types.conforms(context, a, b),
            None => true,
        },
        None => true,
    }
}

/// Whether the results are of equal types, where both have one.
pub fn have_equal_results(one: &Signature, two: &Signature) -> bool
    ensures { result ≡ the.have_equal_results (signature_view one.now) (signature_view two.now) }
{
    match &one.result {
        Some(a) => match &two.result {
            Some(b) => same_type(a, b),
            None => true,
        },
        None => true,
    }
}

/// Whether in the class the first may stand for the second.
pub fn fits(types: &Types, context: ClassId, one: &Signature, two: &Signature) -> bool
    ensures { (u : List ClassT) → AreTypesOf u types.now → result ≡ the.fits u context.0
        (signature_view one.now) (signature_view two.now) }
{
    have_equal_count(one, two)
        && have_equal_arguments(one, two)
        && are_of_one_form(one, two)
        && has_conforming_result(types, context, one, two)
}

/// Whether they are equal in number, types and form.
pub fn are_equal(one: &Signature, two: &Signature) -> bool
    ensures { result ≡ the.are_equal (signature_view one.now) (signature_view two.now) }
{
    have_equal_count(one, two)
        && have_equal_arguments(one, two)
        && are_of_one_form(one, two)
        && have_equal_results(one, two)
}
