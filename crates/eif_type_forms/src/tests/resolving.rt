use crate::tests::forms::{Form, all_made};
use crate::{resolve_all, same_types};
use eif_base::{Memory, NO_FILE, Name, Place, Root};
use eif_tree::builders::written_type;
use eif_tree::class_builders::{written_class, written_formal};
use eif_tree::{ClassTree, Mark, TypeTree};
use eif_universe::{Universe, kernel_trees};
use std::alloc::Global;
use std::test::Fail;

const HERE: Place = Place {
    file: NO_FILE,
    offset: 0,
    line: 0,
    column: 0,
};

/// Types as they are written: the mark, the name, and the marks and names of the actuals.
const WRITTEN: [(Mark, &[u8], &[(Mark, &[u8])]); 5] = [
    (Mark::Plain, b"A", &[]),
    (Mark::Detachable, b"A", &[]),
    (Mark::Plain, b"L", &[]),
    (Mark::Plain, b"MISSING", &[]),
    (
        Mark::Detachable,
        b"A",
        &[(Mark::Detachable, b"K"), (Mark::Plain, b"A")],
    ),
];

/// What they mean in a class with the formals `K` and `L`, where `A` is the first class after the
/// kernel's.
const MEANT: [Form; 5] = [
    Form::Class(6, Mark::Attached, &[]),
    Form::Class(6, Mark::Detachable, &[]),
    Form::Formal(1, Mark::Plain),
    Form::Nothing,
    Form::Class(
        6,
        Mark::Detachable,
        &[
            Form::Formal(0, Mark::Detachable),
            Form::Class(6, Mark::Attached, &[]),
        ],
    ),
];

/// What they mean in a class with the formal `A`, which hides the class of that name.
const MEANT_WHERE_HIDDEN: [Form; 5] = [
    Form::Formal(0, Mark::Plain),
    Form::Formal(0, Mark::Detachable),
    Form::Nothing,
    Form::Nothing,
    Form::Formal(0, Mark::Detachable),
];

fn named(
    alloc: Global,
    mark: Mark,
    name: &[u8],
    actuals: Vec<TypeTree>,
) -> Result<TypeTree, Memory> {
    let name = Name::from_bytes(alloc, name)?;
    Ok(written_type(HERE, HERE, mark, name, actuals))
}

fn written_actuals(alloc: Global, actuals: &[(Mark, &[u8])]) -> Result<Vec<TypeTree>, Memory> {
    let mut trees = Vec::new(alloc);
    for (mark, name) in actuals {
        trees.push(named(alloc, *mark, name, Vec::new(alloc))?)?;
    }
    Ok(trees)
}

fn written(alloc: Global) -> Result<Vec<TypeTree>, Memory> {
    let mut trees = Vec::new(alloc);
    for (mark, name, actuals) in &WRITTEN {
        trees.push(named(alloc, *mark, name, written_actuals(alloc, actuals)?)?)?;
    }
    Ok(trees)
}

/// A class with formals of these names.
fn class_with_formals(alloc: Global, name: &[u8], formals: &[&[u8]]) -> Result<ClassTree, Memory> {
    let mut trees = Vec::new(alloc);
    for formal in formals {
        trees.push(written_formal(HERE, Name::from_bytes(alloc, formal)?, None))?;
    }
    Ok(written_class(
        HERE,
        Name::from_bytes(alloc, name)?,
        false,
        trees,
        Vec::new(alloc),
        Vec::new(alloc),
        Vec::new(alloc),
        Vec::new(alloc),
    ))
}

/// Whether this is what the written types mean in a class with these formals.
fn are_meant(
    alloc: Global,
    u: &Universe,
    formals: &[&[u8]],
    forms: &[Form],
) -> Result<bool, Memory> {
    let class = class_with_formals(alloc, b"B", formals)?;
    if class.formals.len() > 2 {
        return Ok(false);
    }
    let types = resolve_all(alloc, u, &class, &written(alloc)?)?;
    Ok(same_types(&types, &all_made(alloc, forms)?))
}

#[test]
fn names_mean_formals_and_classes(rt: HostRuntime) -> Result<(), Fail> {
    let alloc = rt.alloc();
    let root = Root {
        class_name: Name::from_bytes(alloc, b"A")?,
        procedure_name: Name::from_bytes(alloc, b"make")?,
    };
    let given = vec![in alloc; class_with_formals(alloc, b"A", &[])?]?;
    match Universe::build(alloc, kernel_trees(alloc)?, given, &root) {
        Ok(u) => {
            assert!(rt; are_meant(alloc, &u, &[b"K", b"L"], &MEANT)?);
            assert!(rt; are_meant(alloc, &u, &[b"A"], &MEANT_WHERE_HIDDEN)?);
        }
        Err(_error) => assert!(rt; false, "class A is a universe"),
    }
    Ok(())
}
