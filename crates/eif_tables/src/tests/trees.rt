//! Classes written by hand: Z, its heirs B and C, and D below both.

ghost use Rattle.std.specs.Prelude.{◌≡◌, ◌≤◌, length, IfOk};
ghost use Rattle.eif_rows.specs.Systems.{IsSystem};
ghost use Rattle.eif_universe.specs.Universes.{classes_of};

use eif_base::{Memory, Name, Place, Root};
use eif_tree::builders::written_type;
use eif_tree::class_builders::{
    attribute, deferred_body, routine, written_class, written_clients, written_decl,
    written_features, written_parent,
};
use eif_tree::{
    ClassTree, FeatureClause, FeatureDecl, FeatureKind, Mark, NameAt, ParentClause, RenamePair,
    TypeTree,
};
use eif_universe::{Universe, kernel_trees};
use std::alloc::Global;
use std::test::Fail;

const HERE: Place = Place {
    file: 0,
    offset: 0,
    line: 1,
    column: 1,
};

/// The place of the name of D.
pub(crate) const OF_D: Place = Place {
    file: 3,
    offset: 6,
    line: 1,
    column: 7,
};

fn named(alloc: Global, text: &[u8]) -> Result<NameAt, Memory> {
    Ok(NameAt {
        place: HERE,
        name: Name::from_bytes(alloc, text)?,
    })
}

fn of_class(alloc: Global, name: &[u8]) -> Result<TypeTree, Memory> {
    let name = Name::from_bytes(alloc, name)?;
    Ok(written_type(HERE, HERE, Mark::Plain, name, Vec::new(alloc)))
}

/// A feature without arguments.
fn feature(
    alloc: Global,
    name: &[u8],
    result_type: Option<TypeTree>,
    kind: FeatureKind,
) -> Result<FeatureDecl, Memory> {
    Ok(written_decl(
        vec![in alloc; named(alloc, name)?]?,
        Vec::new(alloc),
        result_type,
        kind,
        Vec::new(alloc),
        Vec::new(alloc),
    ))
}

/// `feature f: INTEGER feature {C} put deferred end`.
fn features_of_z(alloc: Global) -> Result<Vec<FeatureClause>, Memory> {
    let f = feature(alloc, b"f", Some(of_class(alloc, b"INTEGER")?), attribute())?;
    let put = feature(alloc, b"put", None, deferred_body())?;
    let all = written_clients(false, Vec::new(alloc));
    let c = written_clients(true, vec![in alloc; named(alloc, b"C")?]?);
    Ok(vec![in alloc;
        written_features(all, vec![in alloc; f]?),
        written_features(c, vec![in alloc; put]?),
    ]?)
}

/// `feature put do end`.
fn features_of_d(alloc: Global) -> Result<Vec<FeatureClause>, Memory> {
    let kind = routine(Vec::new(alloc), Vec::new(alloc));
    let put = feature(alloc, b"put", None, kind)?;
    let all = written_clients(false, Vec::new(alloc));
    Ok(vec![in alloc; written_features(all, vec![in alloc; put]?)]?)
}

/// A clause of the parent, which renames and selects these names.
fn clause(
    alloc: Global,
    parent: &[u8],
    renames: Vec<RenamePair>,
    selects: Vec<NameAt>,
) -> Result<ParentClause, Memory> {
    Ok(written_parent(
        of_class(alloc, parent)?,
        renames,
        Vec::new(alloc),
        Vec::new(alloc),
        Vec::new(alloc),
        selects,
    ))
}

/// `B select f end C`, or `B C`.
fn clauses_of_d(alloc: Global, selects_f: bool) -> Result<Vec<ParentClause>, Memory> {
    let mut selects = Vec::new(alloc);
    if selects_f {
        selects.push(named(alloc, b"f")?)?;
    }
    Ok(vec![in alloc;
        clause(alloc, b"B", Vec::new(alloc), selects)?,
        clause(alloc, b"C", Vec::new(alloc), Vec::new(alloc))?,
    ]?)
}

/// `Z rename f as x end`.
fn clauses_of_c(alloc: Global) -> Result<Vec<ParentClause>, Memory> {
    let f_as_x = RenamePair {
        old_name: named(alloc, b"f")?,
        new_name: named(alloc, b"x")?,
    };
    let renames = vec![in alloc; f_as_x]?;
    Ok(vec![in alloc; clause(alloc, b"Z", renames, Vec::new(alloc))?]?)
}

/// `Z`.
fn clauses_of_b(alloc: Global) -> Result<Vec<ParentClause>, Memory> {
    Ok(vec![in alloc; clause(alloc, b"Z", Vec::new(alloc), Vec::new(alloc))?]?)
}

fn class_tree(
    alloc: Global,
    place: Place,
    name: &[u8],
    is_deferred: bool,
    parents: Vec<ParentClause>,
    features: Vec<FeatureClause>,
) -> Result<ClassTree, Memory> {
    Ok(written_class(
        place,
        Name::from_bytes(alloc, name)?,
        is_deferred,
        Vec::new(alloc),
        parents,
        Vec::new(alloc),
        features,
        Vec::new(alloc),
    ))
}

/// The deferred classes Z, B and C, and D, which may select `f`.
pub(crate) fn diamond(alloc: Global, selects_f: bool) -> Result<Vec<ClassTree>, Memory>
    ensures { IfOk result (λ v. length v.items ≡ 4) }
{
    let none = Vec::new(alloc);
    let z = class_tree(alloc, HERE, b"Z", true, none, features_of_z(alloc)?)?;
    let b = class_tree(
        alloc,
        HERE,
        b"B",
        true,
        clauses_of_b(alloc)?,
        Vec::new(alloc),
    )?;
    let c = class_tree(
        alloc,
        HERE,
        b"C",
        true,
        clauses_of_c(alloc)?,
        Vec::new(alloc),
    )?;
    let parents = clauses_of_d(alloc, selects_f)?;
    let d = class_tree(alloc, OF_D, b"D", false, parents, features_of_d(alloc)?)?;
    Ok(vec![in alloc; z, b, c, d]?)
}

/// The universe of these classes, of which D is the root.
pub(crate) fn universe_of(alloc: Global, given: Vec<ClassTree>) -> Result<Universe, Fail>
    requires { length given.items ≤ 65536 }
    ensures { IfOk result (λ u. IsSystem (classes_of u)) }
{
    let root = Root {
        class_name: Name::from_bytes(alloc, b"D")?,
        procedure_name: Name::from_bytes(alloc, b"put")?,
    };
    match Universe::build(alloc, kernel_trees(alloc)?, given, &root) {
        Ok(universe) => Ok(universe),
        Err(_error) => Err(Fail::new("these classes are a universe")),
    }
}
