use crate::tests::trees::{Class, Written, at, universe_of};
use crate::{TypeError, Types};
use eif_base::{Code, Fault, FaultList};
use eif_tree::Mark;
use std::test::Fail;

/// The code and the case of a fault, its class, its place and what it is about.
type Told = (Code, u8, &'static [u8], u32, &'static [u8]);

const INTEGER: Written = Written(1, Mark::Plain, b"integer", &[]);

const BOOLEAN: Written = Written(2, Mark::Plain, b"boolean", &[]);

const STRING: Written = Written(3, Mark::Plain, b"string", &[]);

const LIST: Class = Class(b"list", &[(b"g", None)], &[]);

const BOX: Class = Class(
    b"box",
    &[(b"g", Some(Written(4, Mark::Plain, b"string", &[])))],
    &[],
);

/// `list [integer] list [boolean]`.
const TWO_LISTS: &[Written] = &[
    Written(5, Mark::Plain, b"list", &[INTEGER]),
    Written(6, Mark::Plain, b"list", &[BOOLEAN]),
];

/// `list [integer] list [integer]`.
const ONE_LIST_TWICE: &[Written] = &[
    Written(5, Mark::Plain, b"list", &[INTEGER]),
    Written(6, Mark::Plain, b"list", &[INTEGER]),
];

const BOX_OF_INTEGER: &[Written] = &[Written(7, Mark::Plain, b"box", &[INTEGER])];

const BOX_OF_STRING: &[Written] = &[Written(8, Mark::Plain, b"box", &[STRING])];

/// Universes, their first classes, and their only faults.
static UNIVERSES: [(&[Class], &[u8], Option<Told>); 4] = [
    (
        &[Class(b"bad", &[], TWO_LISTS), LIST],
        b"bad",
        Some((Code::Xanc, 1, b"bad", 6, b"list")),
    ),
    (&[Class(b"good", &[], ONE_LIST_TWICE), LIST], b"good", None),
    (
        &[Class(b"user", &[], BOX_OF_INTEGER), BOX],
        b"user",
        Some((Code::Xgen, 2, b"user", 1, b"g")),
    ),
    (&[Class(b"user", &[], BOX_OF_STRING), BOX], b"user", None),
];

fn is_told(fault: &Fault, told: Told) -> bool {
    fault.code == told.0
        && fault.case == told.1
        && fault.class.text() == told.2
        && fault.feature.text().is_empty()
        && fault.place == at(told.3)
        && fault.about.text() == told.4
}

/// Whether the fault is the only one.
fn is_only(faults: &FaultList, told: Told) -> bool {
    faults.count() == 1 && is_told(faults.at(0), told)
}

/// Whether there are types where no fault is wanted, and else an error with that fault alone.
fn is_wanted(built: &Result<Types, TypeError>, wanted: Option<Told>) -> bool {
    match built {
        Ok(_types) => wanted.is_none(),
        Err(TypeError::Faults(faults)) => match wanted {
            Some(told) => is_only(faults, told),
            None => false,
        },
        Err(TypeError::Memory) => false,
    }
}

#[test]
fn broken_rules_are_told(rt: HostRuntime) -> Result<(), Fail> {
    let alloc = rt.alloc();
    for (i, (classes, root, wanted)) in UNIVERSES.iter().enumerate() {
        let universe = universe_of(alloc, classes, root)?;
        let built = Types::build(alloc, &universe);
        assert!(rt; is_wanted(&built, *wanted), "universe {i}");
    }
    Ok(())
}
