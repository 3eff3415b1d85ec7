use eif_base::{Memory, NO_FILE, Name, Place};
use eif_tree::builders::written_type;
use eif_tree::class_builders::{written_class, written_parent};
use eif_tree::{ClassTree, Mark, ParentClause};
use std::alloc::Global;

const SPOT: Place = Place {
    file: NO_FILE,
    offset: 0,
    line: 0,
    column: 0,
};

fn parent(alloc: Global, name: &[u8]) -> Result<ParentClause, Memory> {
    let name = Name::from_bytes(alloc, name)?;
    Ok(written_parent(
        written_type(SPOT, SPOT, Mark::Plain, name, Vec::new(alloc)),
        Vec::new(alloc),
        Vec::new(alloc),
        Vec::new(alloc),
        Vec::new(alloc),
        Vec::new(alloc),
    ))
}

/// A class with these parents and no features.
pub(crate) fn class_below(
    alloc: Global,
    name: &[u8],
    parents: &[&[u8]],
) -> Result<ClassTree, Memory> {
    let mut clauses = Vec::new(alloc);
    for name in parents {
        clauses.push(parent(alloc, name)?)?;
    }
    Ok(written_class(
        SPOT,
        Name::from_bytes(alloc, name)?,
        false,
        Vec::new(alloc),
        clauses,
        Vec::new(alloc),
        Vec::new(alloc),
        Vec::new(alloc),
    ))
}
