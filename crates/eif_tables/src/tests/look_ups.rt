ghost use Rattle.std.specs.Prelude.{◌<◌, IfOk, IsTrue, length};
ghost use Rattle.eif_tables.specs.TablesOf.{AreTables, HasClass, HasFeature, numbering_of};
ghost use Rattle.eif_universe.specs.Universes.{classes_of};

use crate::tests::trees::{OF_D, diamond, universe_of};
use crate::{Origin, RowEntry, TableError, Tables};
use eif_base::{ClassId, Code, Fault, FeatId, Memory, Name, NameId};
use eif_tree::FeatureDecl;
use eif_universe::Universe;
use std::alloc::Global;
use std::test::Fail;

const ANY: ClassId = ClassId(0);

const INTEGER: ClassId = ClassId(1);

const CHARACTER: ClassId = ClassId(3);

const Z: ClassId = ClassId(6);

const B: ClassId = ClassId(7);

const C: ClassId = ClassId(8);

const D: ClassId = ClassId(9);

/// The names of the kernel's classes and of the given ones, in the order of their bytes.
const ALL_NAMES: [&[u8]; 15] = [
    b"append",
    b"code",
    b"count",
    b"default_create",
    b"f",
    b"is_empty",
    b"item",
    b"lower",
    b"make_empty",
    b"make_filled",
    b"out",
    b"print",
    b"put",
    b"upper",
    b"x",
];

/// Classes, their names by numbers among all names, and the numbers of their fields.
const CLASSES: [(ClassId, &[u32], &[u32]); 7] = [
    (ANY, &[3, 10, 11], &[]),
    (INTEGER, &[3, 10, 11], &[]),
    (CHARACTER, &[1, 3, 10, 11], &[]),
    (Z, &[3, 4, 10, 11, 12], &[1]),
    (B, &[3, 4, 10, 11, 12], &[1]),
    (C, &[3, 10, 11, 12, 14], &[4]),
    (D, &[3, 4, 10, 11, 12, 14], &[1, 5]),
];

/// A class, an ancestor and a feature of it, and the number of its name in the class.
const BINDINGS: [(ClassId, ClassId, u32, Option<u32>); 12] = [
    (D, D, 5, Some(5)),
    (B, Z, 1, Some(1)),
    (C, Z, 1, Some(4)),
    (C, Z, 4, Some(3)),
    (D, Z, 1, Some(1)),
    (D, Z, 4, Some(4)),
    (D, B, 1, Some(1)),
    (D, C, 4, Some(5)),
    (D, ANY, 2, Some(3)),
    (Z, D, 1, None),
    (B, C, 4, None),
    (Z, INTEGER, 0, None),
];

/// What a class declares under a name, by numbers.
type Declared = (ClassId, u32);

/// A class and a feature of it, its version, the source of its signature, and what the class itself
/// declares.
const FEATURES: [(ClassId, u32, Option<Declared>, Declared, Option<&[u8]>); 9] = [
    (ANY, 0, Some((ANY, 0)), (ANY, 0), Some(b"default_create")),
    (Z, 1, Some((Z, 1)), (Z, 1), Some(b"f")),
    (Z, 4, None, (Z, 4), Some(b"put")),
    (C, 3, None, (Z, 4), None),
    (C, 4, Some((Z, 1)), (Z, 1), None),
    (D, 1, Some((Z, 1)), (Z, 1), None),
    (D, 3, Some((ANY, 2)), (ANY, 2), None),
    (D, 4, Some((D, 4)), (D, 4), Some(b"put")),
    (D, 5, Some((Z, 1)), (Z, 1), None),
];

/// A class and a feature of it, and whether it is available to a class.
const CLIENTS: [(ClassId, u32, ClassId, bool); 10] = [
    (Z, 1, ANY, true),
    (Z, 1, INTEGER, true),
    (Z, 4, ANY, false),
    (Z, 4, Z, false),
    (Z, 4, B, false),
    (Z, 4, C, true),
    (Z, 4, D, true),
    (B, 4, B, false),
    (B, 4, C, true),
    (D, 4, ANY, true),
];

/// The universe of the classes without a breach, and its tables.
fn diamond_tables(alloc: Global) -> Result<(Universe, Tables), Fail>
    ensures { IfOk result (λ p. AreTables (classes_of p.0) p.1) }
{
    let universe = universe_of(alloc, diamond(alloc, true)?)?;
    match Tables::build(alloc, &universe) {
        Ok(tables) => Ok((universe, tables)),
        Err(_error) => Err(Fail::new("these classes have tables")),
    }
}

fn has_class(u: &Universe, t: &Tables, c: ClassId) -> bool
    requires { AreTables (classes_of u.now) t.now }
    ensures { IsTrue result → HasClass t.now c }
{
    c.0 < u.class_count()
}

fn has_feature(u: &Universe, t: &Tables, c: ClassId, f: FeatId) -> bool
    requires { AreTables (classes_of u.now) t.now }
    ensures { IsTrue result → HasFeature t.now c f }
{
    has_class(u, t, c) && f.0 < t.count(c)
}

/// Whether the class has the name of all names with that number under this number of its own, or
/// lacks it.
fn is_found(
    u: &Universe,
    t: &Tables,
    c: ClassId,
    id: NameId,
    name: &Name,
    f: Option<FeatId>,
) -> bool
    requires tables { AreTables (classes_of u.now) t.now }
    requires class { HasClass t.now c }
    requires id { id.0 < length (numbering_of t.now) }
{
    let is_named = match f {
        Some(f) => has_feature(u, t, c, f) && t.name(c, f) == name,
        None => true,
    };
    is_named && t.find(c, name) == f && t.find_id(c, id) == f
}

/// The number of the name in the class that has these of all names.
fn number_among(ids: &[u32], id: usize) -> Option<FeatId> {
    let number = ids.iter().position(|i| *i as usize == id)?;
    Some(FeatId(u32::try_from(number).ok()?))
}

/// Whether the class has these of all names.
fn has_names(
    alloc: Global,
    u: &Universe,
    t: &Tables,
    c: ClassId,
    ids: &[u32],
) -> Result<bool, Memory>
    requires tables { AreTables (classes_of u.now) t.now }
    requires class { HasClass t.now c }
{
    let mut has = t.count(c) as usize == ids.len() && t.names().count() == 15;
    for (i, text) in ALL_NAMES.iter().enumerate() {
        let id = NameId(i as u32);
        let name = Name::from_bytes(alloc, text)?;
        let number = number_among(ids, i);
        has = has && id.0 < t.names().count() && is_found(u, t, c, id, &name, number);
    }
    Ok(has)
}

fn are_entries(entries: &[RowEntry], ids: &[u32]) -> bool {
    entries.len() == ids.len()
        && entries.iter().zip(ids).enumerate().all(|(i, (entry, id))| entry.name_id.0 == *id
            && entry.feat.0 as usize == i)
}

fn are_numbers(fields: &[FeatId], numbers: &[u32]) -> bool {
    fields.len() == numbers.len() && fields.iter().zip(numbers).all(|(f, n)| f.0 == *n)
}

#[test]
fn names_are_found(rt: HostRuntime) -> Result<(), Fail> {
    let alloc = rt.alloc();
    let (universe, tables) = diamond_tables(alloc)?;
    for (class, ids, fields) in CLASSES {
        let number = class.0;
        assert!(rt; has_class(&universe, &tables, class), "class {number}");
        assert!(rt;
            has_names(alloc, &universe, &tables, class, ids)?,
            "class {number}"
        );
        assert!(rt; are_entries(tables.row(class), ids), "class {number}");
        assert!(rt; are_numbers(tables.fields(class), fields), "class {number}");
    }
    Ok(())
}

#[test]
fn features_are_bound(rt: HostRuntime) -> Result<(), Fail> {
    let (universe, tables) = diamond_tables(rt.alloc())?;
    for (i, (class, ancestor, feature, bound)) in BINDINGS.iter().enumerate() {
        let feature = FeatId(*feature);
        assert!(rt; has_class(&universe, &tables, *class), "binding {i}");
        assert!(rt;
            has_feature(&universe, &tables, *ancestor, feature),
            "binding {i}"
        );
        let found = match tables.bind(*class, *ancestor, feature) {
            Some(name) => Some(name.0),
            None => None,
        };
        assert_eq!(rt; found, *bound, "binding {i}");
    }
    Ok(())
}

/// Whether that is where the version comes from.
fn is_version(origin: Origin, version: Option<Declared>) -> bool {
    match origin {
        Origin::Deferred => version.is_none(),
        Origin::Declared { class_id, feat } => version == Some((class_id, feat.0)),
    }
}

/// Whether the declaration begins with that name.
fn declares(decl: Option<&FeatureDecl>, name: Option<&[u8]>) -> bool {
    match decl {
        Some(decl) => match decl.names.first() {
            Some(first) => Some(first.name.text()) == name,
            None => false,
        },
        None => name.is_none(),
    }
}

#[test]
fn features_have_declarations(rt: HostRuntime) -> Result<(), Fail> {
    let (universe, tables) = diamond_tables(rt.alloc())?;
    for (i, (class, feature, version, source, declared)) in FEATURES.iter().enumerate() {
        let feature = FeatId(*feature);
        assert!(rt;
            has_feature(&universe, &tables, *class, feature),
            "feature {i}"
        );
        let origin = tables.origin(*class, feature);
        assert!(rt; is_version(origin, *version), "feature {i}");
        let (source_class, source_feature) = tables.signature_source(*class, feature);
        assert!(rt; (source_class, source_feature.0) == *source, "feature {i}");
        let decl = tables.declaration(&universe, *class, feature);
        assert!(rt; declares(decl, *declared), "feature {i}");
    }
    Ok(())
}

#[test]
fn features_have_clients(rt: HostRuntime) -> Result<(), Fail> {
    let (universe, tables) = diamond_tables(rt.alloc())?;
    for (i, (class, feature, client, wanted)) in CLIENTS.iter().enumerate() {
        let feature = FeatId(*feature);
        assert!(rt;
            has_feature(&universe, &tables, *class, feature),
            "client {i}"
        );
        assert!(rt; has_class(&universe, &tables, *client), "client {i}");
        let found = tables.available(&universe, *class, feature, *client);
        assert_eq!(rt; found, *wanted, "client {i}");
    }
    Ok(())
}

/// That of D, which does not choose between `f` and `x`.
fn is_undecided_version(fault: &Fault) -> bool {
    fault.code == Code::Vmrc
        && fault.case == 1
        && fault.class.text() == b"d".as_slice()
        && fault.feature.text().is_empty()
        && fault.place == OF_D
        && fault.about.text() == b"f".as_slice()
}

#[test]
fn breaches_are_told(rt: HostRuntime) -> Result<(), Fail> {
    let alloc = rt.alloc();
    let universe = universe_of(alloc, diamond(alloc, false)?)?;
    match Tables::build(alloc, &universe) {
        Ok(_tables) => assert!(rt; false, "D chooses between no versions"),
        Err(TableError::Faults(faults)) => {
            assert_eq!(rt; faults.count(), 1);
            assert!(rt; is_undecided_version(faults.at(0)));
        }
        Err(TableError::Memory) => assert!(rt; false, "memory is ample"),
    }
    Ok(())
}
