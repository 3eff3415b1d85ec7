use crate::class_numbers::number_classes;
use crate::class_rules::push_text_faults;
use crate::classes::Classes;
use eif_base::{Code, Fault, FaultList, Memory, Name, Place};
use eif_tree::builders::written_type;
use eif_tree::class_builders::{
    attribute, written_class, written_clients, written_decl, written_features, written_parent,
};
use eif_tree::{ClassTree, FeatureClause, Mark, NameAt, ParentClause, TypeTree};
use std::alloc::Global;
use std::test::Fail;

fn at(column: u32) -> Place {
    Place {
        file: 0,
        offset: column,
        line: 1,
        column,
    }
}

fn type_named(alloc: Global, column: u32, name: &[u8]) -> Result<TypeTree, Memory> {
    let name = Name::from_bytes(alloc, name)?;
    Ok(written_type(at(column), at(column), Mark::Plain, name, Vec::new(alloc)))
}

/// `inherit NOBODY`.
fn parents(alloc: Global) -> Result<Vec<ParentClause>, Memory> {
    let mut parents = Vec::new(alloc);
    parents.push(written_parent(
        type_named(alloc, 17, b"NOBODY")?,
        Vec::new(alloc),
        Vec::new(alloc),
        Vec::new(alloc),
        Vec::new(alloc),
        Vec::new(alloc),
    ))?;
    Ok(parents)
}

/// `feature x: NOTHING`.
fn features(alloc: Global) -> Result<Vec<FeatureClause>, Memory> {
    let mut names = Vec::new(alloc);
    names.push(NameAt {
        place: at(32),
        name: Name::from_bytes(alloc, b"x")?,
    })?;
    let mut decls = Vec::new(alloc);
    decls.push(written_decl(
        names,
        Vec::new(alloc),
        Some(type_named(alloc, 35, b"NOTHING")?),
        attribute(),
        Vec::new(alloc),
        Vec::new(alloc),
    ))?;
    let mut parts = Vec::new(alloc);
    parts.push(written_features(written_clients(false, Vec::new(alloc)), decls))?;
    Ok(parts)
}

/// `class A inherit NOBODY feature x: NOTHING end`.
fn class_tree(alloc: Global) -> Result<ClassTree, Memory> {
    Ok(written_class(
        at(7),
        Name::from_bytes(alloc, b"A")?,
        false,
        Vec::new(alloc),
        parents(alloc)?,
        Vec::new(alloc),
        features(alloc)?,
        Vec::new(alloc),
    ))
}

fn is_unknown_class(fault: &Fault, feature: &[u8], column: u32) -> bool {
    fault.code == Code::Vtct
        && fault.case == 1
        && fault.feature.text() == feature
        && fault.place == at(column)
}

#[test]
fn unknown_parent_and_type(rt: HostRuntime) -> Result<(), Fail> {
    let alloc = rt.alloc();
    let class = class_tree(alloc)?;
    let numbering = number_classes(alloc, &[])?;
    let classes = Classes {
        trees: &[],
        numbers: &numbering.numbers,
    };
    let mut out = FaultList::new(alloc);
    push_text_faults(alloc, &mut out, classes, &class)?;
    assert_eq!(rt; out.count(), 2);
    assert!(rt; is_unknown_class(out.at(0), b"", 17));
    assert!(rt; is_unknown_class(out.at(1), b"x", 35));
    Ok(())
}
