use crate::tests::forms::{Form, all_made};
use crate::{SubstError, Ty, copy_type, own_formals, same_puts, same_type, same_types, substitute};
use eif_base::{ClassId, Memory};
use eif_tree::Mark;
use std::alloc::Global;
use std::test::Fail;

/// Types of which no two are equal.
const DIFFERENT: [Form; 10] = [
    Form::Class(6, Mark::Attached, &[]),
    Form::Class(7, Mark::Attached, &[]),
    Form::Class(6, Mark::Detachable, &[]),
    Form::Class(6, Mark::Attached, &[Form::Formal(0, Mark::Plain)]),
    Form::Class(6, Mark::Attached, &[Form::Formal(0, Mark::Attached)]),
    Form::Class(
        6,
        Mark::Attached,
        &[Form::Formal(0, Mark::Plain), Form::Nothing],
    ),
    Form::Formal(0, Mark::Plain),
    Form::Formal(0, Mark::Detachable),
    Form::Formal(1, Mark::Plain),
    Form::Nothing,
];

/// What is put in place of the formals 0 and 1.
const ACTUALS: [Form; 2] = [
    Form::Class(6, Mark::Attached, &[Form::Formal(0, Mark::Plain)]),
    Form::Formal(3, Mark::Plain),
];

const OVER_FORMALS: [Form; 6] = [
    Form::Formal(0, Mark::Plain),
    Form::Formal(0, Mark::Detachable),
    Form::Formal(1, Mark::Plain),
    Form::Formal(1, Mark::Attached),
    Form::Formal(2, Mark::Detachable),
    Form::Class(
        7,
        Mark::Detachable,
        &[
            Form::Formal(1, Mark::Detachable),
            Form::Formal(0, Mark::Plain),
        ],
    ),
];

/// The same with the actuals put in.
const OVER_ACTUALS: [Form; 6] = [
    Form::Class(6, Mark::Attached, &[Form::Formal(0, Mark::Plain)]),
    Form::Class(6, Mark::Detachable, &[Form::Formal(0, Mark::Plain)]),
    Form::Formal(3, Mark::Plain),
    Form::Formal(3, Mark::Attached),
    Form::Nothing,
    Form::Class(
        7,
        Mark::Detachable,
        &[
            Form::Formal(3, Mark::Detachable),
            Form::Class(6, Mark::Attached, &[Form::Formal(0, Mark::Plain)]),
        ],
    ),
];

/// How many formals become the actuals 0, which has two names, and 1, and how many NONE, and
/// whether a class with them then has at most 100 names.
const SIZES: [(u32, u32, u32, bool); 6] = [
    (0, 99, 0, true),
    (0, 100, 0, false),
    (49, 1, 0, true),
    (49, 2, 0, false),
    (50, 0, 0, false),
    (49, 1, 200, true),
];

/// Whether the type is equal, both ways, to the one in that place and to no other.
fn is_only(types: &[Ty], place: usize, t: &Ty) -> bool {
    types.iter().enumerate().all(|(i, other)| {
        same_type(t, other) == (i == place) && same_type(other, t) == (i == place)
    })
}

/// The type with the actuals put in, if it is not too large.
fn put_in(alloc: Global, t: &Ty, actuals: &[Ty]) -> Result<Option<Ty>, Memory> {
    match substitute(alloc, t, actuals) {
        Ok(put) => Ok(Some(put)),
        Err(SubstError::TooLarge) => Ok(None),
        Err(SubstError::Memory) => Err(Memory),
    }
}

/// Adds that formal so many times, plain.
fn push_formals(out: &mut Vec<Ty>, index: u32, count: u32) -> Result<(), Memory> {
    for _ in 0..count {
        out.push(Ty::Formal {
            index,
            mark: Mark::Plain,
        })?;
    }
    Ok(())
}

/// A class type of so many formals.
fn with_formals(alloc: Global, zeros: u32, ones: u32, twos: u32) -> Result<Ty, Memory> {
    let mut actuals = Vec::new(alloc);
    push_formals(&mut actuals, 0, zeros)?;
    push_formals(&mut actuals, 1, ones)?;
    push_formals(&mut actuals, 2, twos)?;
    Ok(Ty::Class {
        class_id: ClassId(6),
        mark: Mark::Attached,
        actuals,
    })
}

#[test]
fn types_are_compared_and_copied(rt: HostRuntime) -> Result<(), Fail> {
    let alloc = rt.alloc();
    let types = all_made(alloc, &DIFFERENT)?;
    for (i, t) in types.iter().enumerate() {
        assert!(rt; is_only(&types, i, t), "type {i}");
        assert!(rt;
            is_only(&types, i, &copy_type(alloc, t)?),
            "a copy of type {i}"
        );
    }
    let formals = all_made(
        alloc,
        &[Form::Formal(0, Mark::Plain), Form::Formal(1, Mark::Plain)],
    )?;
    assert!(rt; same_types(&formals, &own_formals(alloc, 2)?));
    assert!(rt; !same_types(&formals, &own_formals(alloc, 3)?));
    Ok(())
}

#[test]
fn actuals_are_put_in_place_of_formals(rt: HostRuntime) -> Result<(), Fail> {
    let alloc = rt.alloc();
    let actuals = all_made(alloc, &ACTUALS)?;
    let types = all_made(alloc, &OVER_FORMALS)?;
    let puts = all_made(alloc, &OVER_ACTUALS)?;
    for (i, t) in types.iter().enumerate() {
        let is_right = put_in(alloc, t, &actuals)?.is_some_and(|put| is_only(&puts, i, &put));
        assert!(rt; is_right, "type {i}");
    }
    assert!(rt; same_puts(&types, &actuals, &puts));
    assert!(rt; !same_puts(&types, &actuals, &types));
    Ok(())
}

#[test]
fn a_type_has_at_most_a_hundred_names(rt: HostRuntime) -> Result<(), Fail> {
    let alloc = rt.alloc();
    let actuals = all_made(alloc, &ACTUALS)?;
    for (zeros, ones, twos, fits) in SIZES {
        let t = with_formals(alloc, zeros, ones, twos)?;
        assert!(rt;
            put_in(alloc, &t, &actuals)?.is_some() == fits,
            "{zeros} and {ones}"
        );
    }
    Ok(())
}
