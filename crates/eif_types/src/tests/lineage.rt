ghost use Rattle.std.specs.Prelude.{IsTrue};
ghost use Rattle.eif_types.specs.TypeTables.{HasClass};

use crate::tests::forms::{Form, all_made, made};
use crate::tests::trees::{Written, sound_types, type_tree};
use crate::{Ty, Types, types_cross};
use eif_base::{ClassId, Memory};
use eif_tree::Mark;
use eif_type_forms::{same_type, same_types};
use std::alloc::Global;
use std::test::Fail;

const ANY: ClassId = ClassId(0);

const Z: ClassId = ClassId(6);

const B: ClassId = ClassId(7);

const LIST: ClassId = ClassId(8);

const PAIR: ClassId = ClassId(9);

const SWAP: ClassId = ClassId(10);

const INTS: ClassId = ClassId(11);

const SUB: ClassId = ClassId(12);

const BOTH: ClassId = ClassId(13);

const FORMAL_0: Form = Form::Formal(0, Mark::Plain);

const FORMAL_1: Form = Form::Formal(1, Mark::Plain);

/// A class, another one, and what the first gives the formals of the second, of which it may be no
/// heir.
static GIVEN: [(ClassId, ClassId, Option<&[Form]>); 11] = [
    (SWAP, PAIR, Some(&[FORMAL_1, FORMAL_0])),
    (PAIR, PAIR, Some(&[FORMAL_0, FORMAL_1])),
    (PAIR, SWAP, None),
    (INTS, LIST, Some(&[Form::Class(1, Mark::Attached, &[])])),
    (SUB, LIST, Some(&[FORMAL_0])),
    (BOTH, LIST, Some(&[FORMAL_0])),
    (Z, B, None),
    (B, B, Some(&[])),
    (B, Z, Some(&[])),
    (B, ANY, Some(&[])),
    (SWAP, LIST, None),
];

/// `?list [g]`.
static WRITTEN: Written = Written(
    20,
    Mark::Detachable,
    b"list",
    &[Written(21, Mark::Plain, b"g", &[])],
);

/// What it means in `sub [g]`.
static MEANT: Form = Form::Class(8, Mark::Detachable, &[FORMAL_0]);

fn has_class(types: &Types, c: ClassId) -> bool
    ensures { IsTrue result → HasClass types.now c }
{
    (c.0 as usize) < types.constraints.len()
}

fn are_given(alloc: Global, given: Option<&[Ty]>, wanted: Option<&[Form]>) -> Result<bool, Memory> {
    match given {
        Some(given) => match wanted {
            Some(wanted) => Ok(same_types(given, &all_made(alloc, wanted)?)),
            None => Ok(false),
        },
        None => Ok(wanted.is_none()),
    }
}

#[test]
fn ancestors_are_given_types(rt: HostRuntime) -> Result<(), Fail> {
    let alloc = rt.alloc();
    types_cross();
    let (universe, types) = sound_types(alloc)?;
    for (i, (class, ancestor, wanted)) in GIVEN.iter().enumerate() {
        assert!(rt; has_class(&types, *class), "row {i}");
        let given = types.ancestor(*class, *ancestor);
        assert!(rt; are_given(alloc, given, *wanted)?, "row {i}");
    }
    assert!(rt; has_class(&types, SUB));
    let resolved = types.resolve(alloc, &universe, SUB, &type_tree(alloc, &WRITTEN)?)?;
    assert!(rt; same_type(&resolved, &made(alloc, &MEANT)?));
    Ok(())
}
