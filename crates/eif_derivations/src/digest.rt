//! Digests of types. Equal types have one digest; any number serves, since lists with one digest are
//! compared.

use eif_tree::Mark;
use eif_type_forms::Ty;

fn mixed(one: u32, two: u32) -> u32 {
    one.wrapping_mul(31).wrapping_add(two)
}

fn digest_of_mark(mark: Mark) -> u32 {
    match mark {
        Mark::Plain => 1,
        Mark::Attached => 2,
        Mark::Detachable => 3,
    }
}

#[cycle(digests)]
fn digest_of_type(t: &Ty) -> u32 {
    match t {
        Ty::Class {
            class_id,
            mark,
            actuals,
        } => mixed(mixed(class_id.0, digest_of_mark(*mark)), digest_of(actuals)),
        Ty::Formal { index, mark } => mixed(*index, digest_of_mark(*mark)),
        Ty::Nothing => 0,
    }
}

/// The digest of the types in their order.
#[cycle(digests)]
pub fn digest_of(ts: &[Ty]) -> u32 {
    let mut digest = 7;
    'types: for t in ts {
        digest = mixed(digest, digest_of_type(t));
    }
    digest
}
