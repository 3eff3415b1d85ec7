use crate::{push_name_faults, push_selection_faults};
use eif_adapt::AdaptedEntry;
use eif_base::{ClassId, Code, FaultList, FeatId, Memory, Name, Place};
use eif_choices::choices_of;
use eif_heirs::{Clause, FeatureDraft, Heir};
use eif_rows::{DeclarationId, Row, Version, ordered_names};
use eif_tree::builders::written_type;
use eif_tree::class_builders::{
    attribute, written_class, written_clients, written_decl, written_features, written_parent,
};
use eif_tree::{ClassTree, Mark, NameAt, ParentClause};
use std::alloc::Global;
use std::test::Fail;

const HERE: Place = Place {
    file: 0,
    offset: 0,
    line: 1,
    column: 1,
};

/// The place of the selected names.
const SELECTED: Place = Place {
    file: 0,
    offset: 9,
    line: 2,
    column: 3,
};

/// Names of one letter at that place.
fn letters(alloc: Global, place: Place, names: &[u8]) -> Result<Vec<NameAt>, Memory> {
    let mut listed = Vec::new(alloc);
    for name in names {
        let name = Name::from_bytes(alloc, &[*name])?;
        listed.push(NameAt { place, name })?;
    }
    Ok(listed)
}

/// The class `H`, which declares these attributes.
fn class_tree(alloc: Global, is_deferred: bool, names: &[u8]) -> Result<ClassTree, Memory> {
    let decl = written_decl(
        letters(alloc, HERE, names)?,
        Vec::new(alloc),
        None,
        attribute(),
        Vec::new(alloc),
        Vec::new(alloc),
    );
    let clients = written_clients(false, Vec::new(alloc));
    let features = written_features(clients, vec![in alloc; decl]?);
    Ok(written_class(
        HERE,
        Name::from_bytes(alloc, b"H")?,
        is_deferred,
        Vec::new(alloc),
        Vec::new(alloc),
        Vec::new(alloc),
        vec![in alloc; features]?,
        Vec::new(alloc),
    ))
}

/// A parent clause that selects these names.
fn clause_tree(alloc: Global, selects: &[u8]) -> Result<ParentClause, Memory> {
    let name = Name::from_bytes(alloc, b"P")?;
    Ok(written_parent(
        written_type(HERE, HERE, Mark::Plain, name, Vec::new(alloc)),
        Vec::new(alloc),
        Vec::new(alloc),
        Vec::new(alloc),
        Vec::new(alloc),
        letters(alloc, SELECTED, selects)?,
    ))
}

/// What is kept of the class with the feature `f`.
fn row(alloc: Global) -> Result<Row, Memory> {
    let name = Name::from_bytes(alloc, b"f")?;
    let mut listed = Vec::new(alloc);
    listed.push(&name)?;
    let names = ordered_names(alloc, listed)?;
    Ok(Row {
        names,
        features: Vec::new(alloc),
        fields: Vec::new(alloc),
        ancestors: Vec::new(alloc),
    })
}

/// The entry of `f` under its final name.
fn entry(alloc: Global, final_name: u8) -> Result<AdaptedEntry, Memory> {
    Ok(AdaptedEntry {
        parent_name: Name::from_bytes(alloc, b"f")?,
        final_name: Name::from_bytes(alloc, &[final_name])?,
        clients: None,
        undefined: false,
        redefined: false,
        selected: false,
    })
}

/// The final name of `f` by a clause, and what the clause selects.
type ClauseCase = (u8, &'static [u8]);

/// A breach: its code, its case, its place and what it is about.
type Breach = (Code, u8, Place, &'static [u8]);

/// Clauses of a class with the feature `f`, and the breaches of selection.
const SELECTIONS: [(&'static [ClauseCase], &'static [Breach]); 6] = [
    (&[(b'f', b"")], &[]),
    (&[(b'g', b""), (b'f', b"")], &[(Code::Vmrc, 1, HERE, b"f")]),
    (&[(b'f', b"f"), (b'g', b"")], &[]),
    (
        &[(b'f', b"f"), (b'g', b"g")],
        &[(Code::Vmrc, 1, HERE, b"f")],
    ),
    (&[(b'g', b"g")], &[(Code::Vmss, 3, SELECTED, b"g")]),
    (
        &[(b'f', b"f"), (b'f', b"")],
        &[(Code::Vmss, 3, SELECTED, b"f")],
    ),
];

/// The clauses as written.
fn clause_trees(alloc: Global, cases: &[ClauseCase]) -> Result<Vec<ParentClause>, Memory> {
    let mut trees = Vec::new(alloc);
    for (_, selects) in cases {
        trees.push(clause_tree(alloc, selects)?)?;
    }
    Ok(trees)
}

/// The clauses, over what is kept of their class.
fn clauses_over<'u>(
    alloc: Global,
    trees: &'u [ParentClause],
    row: &'u Row,
    cases: &[ClauseCase],
) -> Result<Vec<Clause<'u>>, Memory> {
    let mut clauses = Vec::new(alloc);
    for (tree, (final_name, _)) in trees.iter().zip(cases) {
        clauses.push(Clause {
            tree,
            parent: ClassId(0),
            row,
            adapted: vec![in alloc; entry(alloc, *final_name)?]?,
        })?;
    }
    Ok(clauses)
}

/// The breaches of selection of the class, whose clauses are of the class of the one row.
fn faults_over<'u>(
    alloc: Global,
    class: &'u ClassTree,
    trees: &'u [ParentClause],
    rows: &'u [Option<Row>],
    cases: &[ClauseCase],
) -> Result<FaultList, Memory> {
    let mut out = FaultList::new(alloc);
    if let Some(Some(row)) = rows.first() {
        let clauses = clauses_over(alloc, trees, row, cases)?;
        let heir = Heir::of(alloc, ClassId(1), class, clauses)?;
        let choices = choices_of(alloc, rows, &heir)?;
        push_selection_faults(alloc, &heir, &choices, &mut out)?;
    }
    Ok(out)
}

/// The breaches of selection of the class with these clauses.
fn selection_faults(alloc: Global, cases: &[ClauseCase]) -> Result<FaultList, Memory> {
    let class = class_tree(alloc, false, b"")?;
    let trees = clause_trees(alloc, cases)?;
    let rows = vec![in alloc; Some(row(alloc)?)]?;
    faults_over(alloc, &class, &trees, &rows, cases)
}

fn are_breaches(found: &FaultList, wanted: &[Breach]) -> bool {
    found.count() == wanted.len()
        && found.iter().zip(wanted).all(|(fault, breach)| {
            fault.code == breach.0
                && fault.case == breach.1
                && fault.class.text() == b"h".as_slice()
                && fault.feature.text().is_empty()
                && fault.place == breach.2
                && fault.about.text() == breach.3
        })
}

#[test]
fn breaches_of_selection_are_told(rt: HostRuntime) -> Result<(), Fail> {
    let alloc = rt.alloc();
    for (i, (cases, breaches)) in SELECTIONS.iter().enumerate() {
        let found = selection_faults(alloc, cases)?;
        assert!(rt; are_breaches(&found, breaches), "case {i}");
    }
    Ok(())
}

/// What a class has under a name by that version.
fn draft(alloc: Global, version: Option<Version>) -> FeatureDraft {
    FeatureDraft {
        version,
        source: DECLARATION,
        clients: Vec::new(alloc),
        declared: None,
    }
}

const DECLARATION: DeclarationId = DeclarationId {
    class_id: ClassId(0),
    feat: FeatId(2),
};

/// The breaches of the names `f`, `g` and `k`: of the first several versions clash, the second is
/// deferred, the third is an attribute.
fn name_faults(alloc: Global, is_deferred: bool) -> Result<FaultList, Memory> {
    let class = class_tree(alloc, is_deferred, b"kfg")?;
    let heir = Heir::of(alloc, ClassId(0), &class, Vec::new(alloc))?;
    let mut drafts = Vec::new(alloc);
    drafts.push(draft(alloc, None))?;
    drafts.push(draft(alloc, Some(Version::Deferred)))?;
    drafts.push(draft(alloc, Some(Version::Attribute(DECLARATION))))?;
    let mut out = FaultList::new(alloc);
    push_name_faults(alloc, &[], &heir, &drafts, &[], &mut out)?;
    Ok(out)
}

#[test]
fn breaches_of_names_are_told(rt: HostRuntime) -> Result<(), Fail> {
    let alloc = rt.alloc();
    let clash = (Code::Vmfn, 3, HERE, b"f".as_slice());
    let no_version = (Code::Vcch, 1, HERE, b"g".as_slice());
    assert!(rt; are_breaches(&name_faults(alloc, false)?, &[clash, no_version]));
    assert!(rt; are_breaches(&name_faults(alloc, true)?, &[clash]));
    Ok(())
}
