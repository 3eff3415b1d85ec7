use crate::tests::forms::{Form, made};
use crate::tests::trees::sound_types;
use crate::{Ty, Types};
use eif_base::ClassId;
use eif_tree::Mark;
use std::test::Fail;

/// The number of the class `z`, which has no formals.
const IN_Z: u32 = 6;

/// That of `holder [g, h -> z, k -> ?z]`.
const IN_HOLDER: u32 = 14;

const ANY: Form = Form::Class(0, Mark::Attached, &[]);

const OPEN_ANY: Form = Form::Class(0, Mark::Detachable, &[]);

const INTEGER: Form = Form::Class(1, Mark::Attached, &[]);

const BOOLEAN: Form = Form::Class(2, Mark::Attached, &[]);

const Z: Form = Form::Class(6, Mark::Attached, &[]);

const OPEN_Z: Form = Form::Class(6, Mark::Detachable, &[]);

const B: Form = Form::Class(7, Mark::Attached, &[]);

const OPEN_B: Form = Form::Class(7, Mark::Detachable, &[]);

const LIST_OF_Z: Form = Form::Class(8, Mark::Attached, &[Z]);

const LIST_OF_B: Form = Form::Class(8, Mark::Attached, &[B]);

const LIST_OF_OPEN_Z: Form = Form::Class(8, Mark::Attached, &[OPEN_Z]);

const LIST_OF_G: Form = Form::Class(8, Mark::Attached, &[G]);

const LIST_OF_INTEGER: Form = Form::Class(8, Mark::Attached, &[INTEGER]);

const LIST_OF_BOOLEAN: Form = Form::Class(8, Mark::Attached, &[BOOLEAN]);

const PAIR_OF_B_AND_Z: Form = Form::Class(9, Mark::Attached, &[B, Z]);

const PAIR_OF_Z_AND_B: Form = Form::Class(9, Mark::Attached, &[Z, B]);

const SWAP_OF_Z_AND_B: Form = Form::Class(10, Mark::Attached, &[Z, B]);

const INTS: Form = Form::Class(11, Mark::Attached, &[]);

const SUB_OF_Z: Form = Form::Class(12, Mark::Attached, &[Z]);

const BOTH_OF_Z: Form = Form::Class(13, Mark::Attached, &[Z]);

const G: Form = Form::Formal(0, Mark::Plain);

const H: Form = Form::Formal(1, Mark::Plain);

const K: Form = Form::Formal(2, Mark::Plain);

const OPEN_G: Form = Form::Formal(0, Mark::Detachable);

const OPEN_H: Form = Form::Formal(1, Mark::Detachable);

const OPEN_K: Form = Form::Formal(2, Mark::Detachable);

const SURE_G: Form = Form::Formal(0, Mark::Attached);

const SURE_H: Form = Form::Formal(1, Mark::Attached);

const SURE_K: Form = Form::Formal(2, Mark::Attached);

const NONE: Form = Form::Nothing;

/// Two types in a class, and whether the first conforms to the second there. `?` is detachable, and
/// `!` attached.
static PAIRS: [(&str, u32, Form, Form, bool); 63] = [
    ("b to z", IN_Z, B, Z, true),
    ("z to b", IN_Z, Z, B, false),
    ("?b to z", IN_Z, OPEN_B, Z, false),
    ("b to ?z", IN_Z, B, OPEN_Z, true),
    ("?b to ?z", IN_Z, OPEN_B, OPEN_Z, true),
    ("none to z", IN_Z, NONE, Z, false),
    ("none to ?z", IN_Z, NONE, OPEN_Z, true),
    ("none to none", IN_Z, NONE, NONE, false),
    ("z to none", IN_Z, Z, NONE, false),
    ("b to any", IN_Z, B, ANY, true),
    ("?b to any", IN_Z, OPEN_B, ANY, false),
    ("any to b", IN_Z, ANY, B, false),
    ("integer to any", IN_Z, INTEGER, ANY, true),
    ("integer to boolean", IN_Z, INTEGER, BOOLEAN, false),
    ("list [b] to list [z]", IN_Z, LIST_OF_B, LIST_OF_Z, false),
    ("list [z] to list [z]", IN_Z, LIST_OF_Z, LIST_OF_Z, true),
    (
        "list [z] to list [?z]",
        IN_Z,
        LIST_OF_Z,
        LIST_OF_OPEN_Z,
        false,
    ),
    ("list [z] to sub [z]", IN_Z, LIST_OF_Z, SUB_OF_Z, false),
    (
        "swap [z, b] to pair [b, z]",
        IN_Z,
        SWAP_OF_Z_AND_B,
        PAIR_OF_B_AND_Z,
        true,
    ),
    (
        "swap [z, b] to pair [z, b]",
        IN_Z,
        SWAP_OF_Z_AND_B,
        PAIR_OF_Z_AND_B,
        false,
    ),
    ("ints to list [integer]", IN_Z, INTS, LIST_OF_INTEGER, true),
    ("ints to list [boolean]", IN_Z, INTS, LIST_OF_BOOLEAN, false),
    ("sub [z] to list [z]", IN_Z, SUB_OF_Z, LIST_OF_Z, true),
    ("sub [z] to list [b]", IN_Z, SUB_OF_Z, LIST_OF_B, false),
    ("both [z] to list [z]", IN_Z, BOTH_OF_Z, LIST_OF_Z, true),
    ("both [z] to sub [z]", IN_Z, BOTH_OF_Z, SUB_OF_Z, true),
    ("b to ?any", IN_Z, B, OPEN_ANY, true),
    ("?b to ?any", IN_Z, OPEN_B, OPEN_ANY, true),
    ("any to ?any", IN_Z, ANY, OPEN_ANY, true),
    ("?any to ?any", IN_Z, OPEN_ANY, OPEN_ANY, true),
    ("integer to ?any", IN_Z, INTEGER, OPEN_ANY, true),
    ("list [z] to ?any", IN_Z, LIST_OF_Z, OPEN_ANY, true),
    ("swap [z, b] to ?any", IN_Z, SWAP_OF_Z_AND_B, OPEN_ANY, true),
    ("ints to ?any", IN_Z, INTS, OPEN_ANY, true),
    ("both [z] to ?any", IN_Z, BOTH_OF_Z, OPEN_ANY, true),
    ("none to ?any", IN_Z, NONE, OPEN_ANY, true),
    ("g to ?any", IN_HOLDER, G, OPEN_ANY, true),
    ("h to ?any", IN_HOLDER, H, OPEN_ANY, true),
    ("k to ?any", IN_HOLDER, K, OPEN_ANY, true),
    ("?g to ?any", IN_HOLDER, OPEN_G, OPEN_ANY, true),
    ("?k to ?any", IN_HOLDER, OPEN_K, OPEN_ANY, true),
    ("g to any", IN_HOLDER, G, ANY, false),
    ("!g to any", IN_HOLDER, SURE_G, ANY, true),
    ("h to any", IN_HOLDER, H, ANY, true),
    ("g to ?z", IN_HOLDER, G, OPEN_Z, false),
    ("h to z", IN_HOLDER, H, Z, true),
    ("?h to z", IN_HOLDER, OPEN_H, Z, false),
    ("?h to ?z", IN_HOLDER, OPEN_H, OPEN_Z, true),
    ("!h to z", IN_HOLDER, SURE_H, Z, true),
    ("h to b", IN_HOLDER, H, B, false),
    ("k to z", IN_HOLDER, K, Z, false),
    ("k to ?z", IN_HOLDER, K, OPEN_Z, true),
    ("!k to z", IN_HOLDER, SURE_K, Z, true),
    ("z to h", IN_HOLDER, Z, H, false),
    ("z to ?h", IN_HOLDER, Z, OPEN_H, false),
    ("h to none", IN_HOLDER, H, NONE, false),
    ("none to ?h", IN_HOLDER, NONE, OPEN_H, true),
    ("none to h", IN_HOLDER, NONE, H, false),
    (
        "list [g] to list [g]",
        IN_HOLDER,
        LIST_OF_G,
        LIST_OF_G,
        true,
    ),
    (
        "list [g] to list [z]",
        IN_HOLDER,
        LIST_OF_G,
        LIST_OF_Z,
        false,
    ),
    ("a formal that is not there", IN_Z, G, G, false),
    ("its constraint", IN_Z, G, OPEN_ANY, false),
    ("none to it", IN_Z, NONE, OPEN_G, false),
];

/// Two marks, and whether a formal with the first conforms to the same formal with the second.
static MARKS: [(Mark, Mark, bool); 9] = [
    (Mark::Attached, Mark::Attached, true),
    (Mark::Attached, Mark::Plain, true),
    (Mark::Attached, Mark::Detachable, true),
    (Mark::Plain, Mark::Attached, false),
    (Mark::Plain, Mark::Plain, true),
    (Mark::Plain, Mark::Detachable, true),
    (Mark::Detachable, Mark::Attached, false),
    (Mark::Detachable, Mark::Plain, false),
    (Mark::Detachable, Mark::Detachable, true),
];

/// Whether each formal of the holder with the first mark conforms to itself with the second as
/// wanted, and to no other.
fn formals_conform(types: &Types, one: Mark, two: Mark, wanted: bool) -> bool {
    for number in 0u32..9 {
        let a = Ty::Formal {
            index: number / 3,
            mark: one,
        };
        let b = Ty::Formal {
            index: number % 3,
            mark: two,
        };
        let is_wanted = wanted && number / 3 == number % 3;
        if types.conforms(ClassId(IN_HOLDER), &a, &b) != is_wanted {
            return false;
        }
    }
    true
}

#[test]
fn types_conform(rt: HostRuntime) -> Result<(), Fail> {
    let alloc = rt.alloc();
    let (_universe, types) = sound_types(alloc)?;
    for (text, context, a, b, wanted) in &PAIRS {
        let a = made(alloc, a)?;
        let b = made(alloc, b)?;
        assert_eq!(rt;
            types.conforms(ClassId(*context), &a, &b),
            *wanted,
            "{text}"
        );
    }
    for (i, (one, two, wanted)) in MARKS.iter().enumerate() {
        assert!(rt; formals_conform(&types, *one, *two, *wanted), "marks {i}");
    }
    Ok(())
}
