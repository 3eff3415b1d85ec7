use crate::rules::Part;
use crate::{Adapted, AdaptedEntry, ParentFeature, ParentState, adapt, adapt_crosses};
use eif_base::{Code, FaultList, Memory, Name, Place};
use eif_tree::builders::written_type;
use eif_tree::class_builders::{written_clients, written_export, written_parent};
use eif_tree::{ExportItem, Mark, NameAt, ParentClause, RenamePair, TypeTree};
use std::alloc::Global;
use std::test::Fail;

fn at(column: u32) -> Place {
    Place {
        file: 0,
        offset: column,
        line: 1,
        column,
    }
}

/// A name of one letter.
fn letter(alloc: Global, column: u32, name: u8) -> Result<NameAt, Memory> {
    Ok(NameAt {
        place: at(column),
        name: Name::from_bytes(alloc, &[name])?,
    })
}

/// Names of one letter.
fn letters(alloc: Global, names: &[u8]) -> Result<Vec<NameAt>, Memory> {
    let mut listed = Vec::new(alloc);
    for name in names {
        listed.push(letter(alloc, 1, *name)?)?;
    }
    Ok(listed)
}

fn renaming(alloc: Global, column: u32, old: u8, new: u8) -> Result<RenamePair, Memory> {
    Ok(RenamePair {
        old_name: letter(alloc, column, old)?,
        new_name: letter(alloc, column, new)?,
    })
}

/// `{clients} names`, and also `all` where it has a place.
fn item(
    alloc: Global,
    clients: &[u8],
    all: Option<Place>,
    names: &[u8],
) -> Result<ExportItem, Memory> {
    let clients = written_clients(true, letters(alloc, clients)?);
    Ok(written_export(clients, all, letters(alloc, names)?))
}

fn parent(alloc: Global) -> Result<TypeTree, Memory> {
    let name = Name::from_bytes(alloc, b"P")?;
    Ok(written_type(at(1), at(1), Mark::Plain, name, Vec::new(alloc)))
}

/// An attribute `a`, a deferred feature `d`, and routines `r` and `s`.
fn features(alloc: Global) -> Result<Vec<ParentFeature>, Memory> {
    let mut features = Vec::new(alloc);
    for (name, state) in [
        (b'a', ParentState::AttributeFeature),
        (b'd', ParentState::DeferredFeature),
        (b'r', ParentState::RoutineFeature),
        (b's', ParentState::RoutineFeature),
    ] {
        let name = Name::from_bytes(alloc, &[name])?;
        features.push(ParentFeature { name, state })?;
    }
    Ok(features)
}

/// `P rename r as t export {X} t; {Y, Z} all undefine t redefine s select a end`.
fn clause(alloc: Global) -> Result<ParentClause, Memory> {
    let mut renames = Vec::new(alloc);
    renames.push(renaming(alloc, 1, b'r', b't')?)?;
    let mut exports = Vec::new(alloc);
    exports.push(item(alloc, b"x", None, b"t")?)?;
    exports.push(item(alloc, b"yz", Some(at(1)), b"")?)?;
    Ok(written_parent(
        parent(alloc)?,
        renames,
        exports,
        letters(alloc, b"t")?,
        letters(alloc, b"s")?,
        letters(alloc, b"a")?,
    ))
}

/// Whether the names are these letters.
fn are_letters(names: &[NameAt], letters: &[u8]) -> bool {
    names.len() == letters.len()
        && names
            .iter()
            .zip(letters)
            .all(|(name, letter)| name.name.text() == [*letter].as_slice())
}

/// Whether the entry is that of the names, with these clients and marks.
fn is_entry(
    entry: &AdaptedEntry,
    parent_name: &[u8],
    final_name: &[u8],
    clients: &[u8],
    marks: [bool; 3],
) -> bool {
    let Some(found) = &entry.clients else {
        return false;
    };
    entry.parent_name.text() == parent_name
        && entry.final_name.text() == final_name
        && found.stated
        && are_letters(&found.names, clients)
        && marks == [entry.undefined, entry.redefined, entry.selected]
}

#[test]
fn a_clause_adapts_each_feature(rt: HostRuntime) -> Result<(), Fail> {
    adapt_crosses();
    let alloc = rt.alloc();
    let class = Name::from_bytes(alloc, b"C")?;
    let mut out = FaultList::new(alloc);
    let Adapted { entries } = adapt(alloc, &class, &clause(alloc)?, &features(alloc)?, &mut out)?;
    assert!(rt; out.is_empty());
    match entries.as_slice() {
        [a, d, r, s] => {
            assert!(rt; is_entry(a, b"a", b"a", b"yz", [false, false, true]));
            assert!(rt; is_entry(d, b"d", b"d", b"yz", [false, false, false]));
            assert!(rt; is_entry(r, b"r", b"t", b"x", [true, false, false]));
            assert!(rt; is_entry(s, b"s", b"s", b"yz", [false, true, false]));
        }
        _ => assert!(rt; false, "each feature has an entry"),
    }
    Ok(())
}

/// A clause with that part alone. An item of it is an old and a new name, a client and a name or
/// `*` for `all`, or a name.
fn clause_with(alloc: Global, part: Part, items: &[(u8, u8)]) -> Result<ParentClause, Memory> {
    let mut renames = Vec::new(alloc);
    let mut exports = Vec::new(alloc);
    let mut names = Vec::new(alloc);
    for (i, (first, second)) in items.iter().enumerate() {
        let column = (i % 8) as u32;
        match part {
            Part::Rename => renames.push(renaming(alloc, column, *first, *second)?)?,
            Part::Export => exports.push(exported(alloc, column, *first, *second)?)?,
            _ => names.push(letter(alloc, column, *first)?)?,
        }
    }
    let none = Vec::new(alloc);
    let also_none = Vec::new(alloc);
    let parent = parent(alloc)?;
    Ok(match part {
        Part::Redefine => written_parent(parent, renames, exports, none, names, also_none),
        Part::Select => written_parent(parent, renames, exports, none, also_none, names),
        _ => written_parent(parent, renames, exports, names, none, also_none),
    })
}

/// `{client} name`, or `{client} all` where the name is `*`.
fn exported(alloc: Global, column: u32, client: u8, name: u8) -> Result<ExportItem, Memory> {
    let clients = written_clients(true, letters(alloc, &[client])?);
    if name == b'*' {
        return Ok(written_export(clients, Some(at(column)), Vec::new(alloc)));
    }
    let mut names = Vec::new(alloc);
    names.push(letter(alloc, column, name)?)?;
    Ok(written_export(clients, None, names))
}

/// Clauses with one breach each: the part, its items, and the breach's code, case, column and
/// name.
const BREACHES: [(Part, &[(u8, u8)], Code, u8, u32, &[u8]); 13] = [
    (Part::Rename, &[(b'q', b't')], Code::Vhrc, 1, 0, b"q"),
    (
        Part::Rename,
        &[(b'r', b't'), (b'r', b'u')],
        Code::Vhrc,
        2,
        1,
        b"r",
    ),
    (Part::Export, &[(b'x', b'q')], Code::Vlel, 1, 0, b"q"),
    (
        Part::Export,
        &[(b'x', b'r'), (b'y', b'r')],
        Code::Vlel,
        2,
        1,
        b"r",
    ),
    (
        Part::Export,
        &[(b'x', b'*'), (b'y', b'*')],
        Code::Vlel,
        3,
        1,
        b"all",
    ),
    (Part::Undefine, &[(b'q', 0)], Code::Vdus, 1, 0, b"q"),
    (
        Part::Undefine,
        &[(b'r', 0), (b'r', 0)],
        Code::Vdus,
        2,
        1,
        b"r",
    ),
    (Part::Undefine, &[(b'a', 0)], Code::Vdus, 3, 0, b"a"),
    (Part::Undefine, &[(b'd', 0)], Code::Vdus, 4, 0, b"d"),
    (Part::Redefine, &[(b'q', 0)], Code::Vdrs, 1, 0, b"q"),
    (
        Part::Redefine,
        &[(b's', 0), (b's', 0)],
        Code::Vdrs,
        2,
        1,
        b"s",
    ),
    (Part::Select, &[(b'q', 0)], Code::Vmss, 1, 0, b"q"),
    (
        Part::Select,
        &[(b'a', 0), (b'a', 0)],
        Code::Vmss,
        2,
        1,
        b"a",
    ),
];

#[test]
fn each_breach_is_told(rt: HostRuntime) -> Result<(), Fail> {
    let alloc = rt.alloc();
    let class = Name::from_bytes(alloc, b"C")?;
    let features = features(alloc)?;
    for (part, items, code, case, column, about) in BREACHES {
        let clause = clause_with(alloc, part, items)?;
        let mut out = FaultList::new(alloc);
        let Adapted { entries } = adapt(alloc, &class, &clause, &features, &mut out)?;
        assert_eq!(rt; entries.len(), 4);
        assert_eq!(rt; out.count(), 1);
        let fault = out.at(0);
        assert!(rt; fault.code == code, "at {code:?} {case}");
        assert_eq!(rt; fault.case, case);
        assert_eq!(rt; fault.class.text(), b"c".as_slice());
        assert!(rt; fault.feature.text().is_empty());
        assert!(rt; fault.place == at(column));
        assert_eq!(rt; fault.about.text(), about);
    }
    Ok(())
}
