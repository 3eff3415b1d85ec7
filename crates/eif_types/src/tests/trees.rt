//! Classes as the tables write them, and their universes. Tables that hold references are statics:
//! a constant would be made anew in the frame of each function that reads it, and that is slow to
//! prove.

ghost use Rattle.std.specs.Prelude.{IfOk};
ghost use Rattle.eif_rows.specs.Systems.{IsSystem};
ghost use Rattle.eif_types.specs.TypeTables.{AreTypes};
ghost use Rattle.eif_universe.specs.Universes.{classes_of};

use crate::Types;
use eif_base::{Memory, Name, Place, Root};
use eif_tree::builders::written_type;
use eif_tree::class_builders::{written_class, written_formal, written_parent};
use eif_tree::{ClassTree, FormalTree, Mark, ParentClause, TypeTree};
use eif_universe::{Universe, kernel_trees};
use std::alloc::Global;
use std::test::Fail;

/// A type as it is written: where it stands, its mark, its name and its actuals.
#[derive(Clone, Copy)]
pub(crate) struct Written(
    pub(crate) u32,
    pub(crate) Mark,
    pub(crate) &'static [u8],
    pub(crate) &'static [Written],
);

/// A class: its name, the names and the constraints of its formals, and its parents.
#[derive(Clone, Copy)]
pub(crate) struct Class(
    pub(crate) &'static [u8],
    pub(crate) &'static [(&'static [u8], Option<Written>)],
    pub(crate) &'static [Written],
);

/// `g`, with no mark.
const G: Written = Written(10, Mark::Plain, b"g", &[]);

/// `h`, with no mark.
const H: Written = Written(11, Mark::Plain, b"h", &[]);

const INTEGER: Written = Written(12, Mark::Plain, b"integer", &[]);

const Z: Written = Written(13, Mark::Plain, b"z", &[]);

const LIST_OF_G: Written = Written(14, Mark::Plain, b"list", &[G]);

/// Classes that break no rule. The first has the number 6.
pub(crate) static CLASSES: [Class; 9] = [
    Class(b"z", &[], &[]),
    Class(b"b", &[], &[Z]),
    Class(b"list", &[(b"g", None)], &[]),
    Class(b"pair", &[(b"g", None), (b"h", None)], &[]),
    Class(
        b"swap",
        &[(b"g", None), (b"h", None)],
        &[Written(15, Mark::Plain, b"pair", &[H, G])],
    ),
    Class(
        b"ints",
        &[],
        &[Written(16, Mark::Plain, b"list", &[INTEGER])],
    ),
    Class(b"sub", &[(b"g", None)], &[LIST_OF_G]),
    Class(
        b"both",
        &[(b"g", None)],
        &[Written(17, Mark::Plain, b"sub", &[G]), LIST_OF_G],
    ),
    Class(
        b"holder",
        &[
            (b"g", None),
            (b"h", Some(Z)),
            (b"k", Some(Written(18, Mark::Detachable, b"z", &[]))),
        ],
        &[],
    ),
];

pub(crate) fn at(offset: u32) -> Place {
    Place {
        file: 1,
        offset,
        line: 1,
        column: offset,
    }
}

#[cycle(trees)]
pub(crate) fn type_tree(alloc: Global, written: &Written) -> Result<TypeTree, Memory> {
    let place = at(written.0);
    let name = Name::from_bytes(alloc, written.2)?;
    let actuals = type_trees(alloc, written.3)?;
    Ok(written_type(place, place, written.1, name, actuals))
}

#[cycle(trees)]
fn type_trees(alloc: Global, all_written: &[Written]) -> Result<Vec<TypeTree>, Memory> {
    let mut trees = Vec::new(alloc);
    for written in all_written {
        trees.push(type_tree(alloc, written)?)?;
    }
    Ok(trees)
}

fn formal_trees(
    alloc: Global,
    formals: &[(&[u8], Option<Written>)],
) -> Result<Vec<FormalTree>, Memory> {
    let mut trees = Vec::new(alloc);
    for (name, constraint) in formals {
        let constraint = match constraint {
            Some(written) => Some(type_tree(alloc, written)?),
            None => None,
        };
        trees.push(written_formal(at(1), Name::from_bytes(alloc, name)?, constraint))?;
    }
    Ok(trees)
}

fn parent_clauses(alloc: Global, parents: &[Written]) -> Result<Vec<ParentClause>, Memory> {
    let mut clauses = Vec::new(alloc);
    for parent in parents {
        clauses.push(written_parent(
            type_tree(alloc, parent)?,
            Vec::new(alloc),
            Vec::new(alloc),
            Vec::new(alloc),
            Vec::new(alloc),
            Vec::new(alloc),
        ))?;
    }
    Ok(clauses)
}

fn class_trees(alloc: Global, classes: &[Class]) -> Result<Vec<ClassTree>, Memory> {
    let mut trees = Vec::new(alloc);
    for class in classes {
        trees.push(written_class(
            at(2),
            Name::from_bytes(alloc, class.0)?,
            false,
            formal_trees(alloc, class.1)?,
            parent_clauses(alloc, class.2)?,
            Vec::new(alloc),
            Vec::new(alloc),
            Vec::new(alloc),
        ))?;
    }
    Ok(trees)
}

/// The universe of the classes, with a root of that name.
pub(crate) fn universe_of(alloc: Global, classes: &[Class], root: &[u8]) -> Result<Universe, Fail>
    ensures { IfOk result (λ u. IsSystem (classes_of u)) }
{
    let root = Root {
        class_name: Name::from_bytes(alloc, root)?,
        procedure_name: Name::from_bytes(alloc, b"make")?,
    };
    let given = class_trees(alloc, classes)?;
    if given.len() > 65536 {
        return Err(Fail::new("the classes are few"));
    }
    match Universe::build(alloc, kernel_trees(alloc)?, given, &root) {
        Ok(universe) => Ok(universe),
        Err(_error) => Err(Fail::new("these classes are a universe")),
    }
}

/// The universe of the classes that break no rule, and its types.
pub(crate) fn sound_types(alloc: Global) -> Result<(Universe, Types), Fail>
    ensures { IfOk result (λ p. AreTypes (classes_of p.0) p.1) }
{
    let universe = universe_of(alloc, &CLASSES, b"z")?;
    match Types::build(alloc, &universe) {
        Ok(types) => Ok((universe, types)),
        Err(_error) => Err(Fail::new("these classes have types")),
    }
}
