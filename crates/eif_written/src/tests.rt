use crate::{
    LentFault, any_clauses, clauses_of, nested_types, push_fault, push_where, written_types,
};
use eif_base::{Code, FaultList, Memory, Name, Place};
use eif_tree::builders::{call, creation, current_value, test, written_assertion, written_type};
use eif_tree::class_builders::{
    routine, written_class, written_clients, written_decl, written_features, written_formal,
    written_group, written_parent,
};
use eif_tree::{
    ClassTree, FeatureClause, FeatureDecl, Group, Mark, NameAt, ParentClause, TypeTree,
};
use std::alloc::Global;
use std::test::Fail;

const HERE: Place = Place {
    file: 0,
    offset: 0,
    line: 1,
    column: 1,
};

fn named(alloc: Global, name: &str) -> Result<NameAt, Memory> {
    Ok(NameAt {
        place: HERE,
        name: Name::from_bytes(alloc, name.as_bytes())?,
    })
}

/// The type of that name with these actuals.
fn type_of(alloc: Global, name: &str, actuals: Vec<TypeTree>) -> Result<TypeTree, Memory> {
    let name = Name::from_bytes(alloc, name.as_bytes())?;
    Ok(written_type(HERE, HERE, Mark::Plain, name, actuals))
}

fn plain(alloc: Global, name: &str) -> Result<TypeTree, Memory> {
    type_of(alloc, name, Vec::new(alloc))
}

fn clause(alloc: Global, parent: TypeTree) -> ParentClause {
    written_parent(
        parent,
        Vec::new(alloc),
        Vec::new(alloc),
        Vec::new(alloc),
        Vec::new(alloc),
        Vec::new(alloc),
    )
}

fn groups(alloc: Global, name: &str, type_name: &str) -> Result<Vec<Group>, Memory> {
    let names = vec![in alloc; named(alloc, name)?]?;
    Ok(vec![in alloc; written_group(names, plain(alloc, type_name)?)]?)
}

/// `f, g (a: ARG): RES require {t: PRE} Current local l: LOC do create {NEW} ensure ..`.
fn decl(alloc: Global) -> Result<FeatureDecl, Memory> {
    let made = creation(HERE, plain(alloc, "new")?, None, Vec::new(alloc));
    let body = vec![in alloc; call(made)]?;
    let tested = test(
        alloc,
        HERE,
        Some(plain(alloc, "pre")?),
        None,
        current_value(HERE),
    )?;
    Ok(written_decl(
        vec![in alloc; named(alloc, "f")?, named(alloc, "g")?]?,
        groups(alloc, "a", "arg")?,
        Some(plain(alloc, "res")?),
        routine(groups(alloc, "l", "loc")?, body),
        vec![in alloc; written_assertion(tested)]?,
        Vec::new(alloc),
    ))
}

fn features(alloc: Global) -> Result<Vec<FeatureClause>, Memory> {
    let clients = written_clients(false, Vec::new(alloc));
    let decls = vec![in alloc; decl(alloc)?]?;
    Ok(vec![in alloc; written_features(clients, decls)]?)
}

/// A class of that name with the parents and the features.
fn class(
    alloc: Global,
    name: &str,
    parents: Vec<ParentClause>,
    features: Vec<FeatureClause>,
) -> Result<ClassTree, Memory> {
    let formal = Name::from_bytes(alloc, b"t")?;
    let formals = vec![in alloc; written_formal(HERE, formal, Some(plain(alloc, "con")?))]?;
    let made = creation(HERE, plain(alloc, "inv")?, None, Vec::new(alloc));
    Ok(written_class(
        HERE,
        Name::from_bytes(alloc, name.as_bytes())?,
        false,
        formals,
        parents,
        Vec::new(alloc),
        features,
        vec![in alloc; written_assertion(made)]?,
    ))
}

/// Types in the order of the text: that of the constraint, of the parent, of the declaration, of the
/// invariant; each with what faults in it are told of.
const WRITTEN: [(&str, &str); 8] = [
    ("", "con"),
    ("", "list"),
    ("f", "arg"),
    ("f", "res"),
    ("f", "pre"),
    ("f", "loc"),
    ("f", "new"),
    ("invariant", "inv"),
];

#[test]
fn types_stand_in_order(rt: HostRuntime) -> Result<(), Fail> {
    let alloc = rt.alloc();
    let inner = type_of(
        alloc,
        "pair",
        vec![in alloc; plain(alloc, "x")?, plain(alloc, "y")?]?,
    )?;
    let parent = type_of(alloc, "list", vec![in alloc; inner, plain(alloc, "z")?]?)?;
    let parents = vec![in alloc; clause(alloc, parent)]?;
    let class = class(alloc, "app", parents, features(alloc)?)?;
    let written = written_types(alloc, &class)?;
    assert_eq!(rt; written.len(), WRITTEN.len());
    for (one, (owner, name)) in written.iter().zip(&WRITTEN) {
        assert!(rt;
            one.owner.name(alloc)?.text() == owner.as_bytes(),
            "{owner}"
        );
        assert!(rt; one.type_tree.name.text() == name.as_bytes(), "{name}");
    }
    let nested = nested_types(alloc, written[1].type_tree)?;
    let names = ["list", "pair", "x", "y", "z"];
    assert_eq!(rt; nested.len(), names.len());
    for (tree, name) in nested.iter().zip(&names) {
        assert!(rt; tree.name.text() == name.as_bytes(), "{name}");
    }
    Ok(())
}

/// Whether these are one clause, whose class has that name.
fn are_one_of(clauses: &[ParentClause], name: &[u8]) -> bool {
    match clauses.first() {
        Some(clause) => clauses.len() == 1 && clause.parent.name.text() == name,
        None => false,
    }
}

#[test]
fn a_class_without_clauses_inherits_any(rt: HostRuntime) -> Result<(), Fail> {
    let alloc = rt.alloc();
    let any = any_clauses(alloc)?;
    let parents = vec![in alloc; clause(alloc, plain(alloc, "b")?)]?;
    let heir = class(alloc, "a", parents, Vec::new(alloc))?;
    assert!(rt; are_one_of(clauses_of(&heir, &any), b"b"));
    let alone = class(alloc, "b", Vec::new(alloc), Vec::new(alloc))?;
    assert!(rt; are_one_of(clauses_of(&alone, &any), b"any"));
    let top = class(alloc, "any", Vec::new(alloc), Vec::new(alloc))?;
    assert!(rt; clauses_of(&top, &any).is_empty());
    Ok(())
}

#[test]
fn faults_have_their_own_names(rt: HostRuntime) -> Result<(), Fail> {
    let alloc = rt.alloc();
    let class = class(alloc, "app", Vec::new(alloc), Vec::new(alloc))?;
    let name = Name::from_bytes(alloc, b"f")?;
    let mut faults = FaultList::new(alloc);
    push_where(
        alloc,
        &mut faults,
        false,
        &LentFault::of(&class, Code::Xlim, 5),
    )?;
    push_where(
        alloc,
        &mut faults,
        true,
        &LentFault::of(&class, Code::Xlim, 8),
    )?;
    let fault = LentFault::within(&class, &name, Code::Vmfn, 1, HERE, &name);
    push_fault(alloc, &mut faults, &fault)?;
    assert_eq!(rt; faults.count(), 2);
    for (fault, (case, feature, about)) in faults.iter().zip(&[(8, "", "app"), (1, "f", "f")]) {
        assert_eq!(rt; fault.case, *case);
        assert!(rt; fault.class.text() == b"app".as_slice());
        assert!(rt; fault.feature.text() == feature.as_bytes());
        assert!(rt; fault.about.text() == about.as_bytes());
    }
    Ok(())
}
