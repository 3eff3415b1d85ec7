//! The digest of a class.

ghost use Rattle.std.specs.Prelude.{◌≡◌, map};
ghost use Rattle.std.specs.Option.{option_map};
ghost use Rattle.eif_tree.specs.View.{class_view, clients_view, creators_view, decl_view, export_view, features_view, formal_view, group_view, kind_view, parent_view};
ghost use Rattle.eif_examples.specs.Digest.{after, digest, reads_of};
ghost use Rattle.eif_examples.specs.Numbers as its;

use crate::expressions::{claims, maybe_type, type_tree};
use crate::instructions::compound;
use crate::parts::{flag, literal, mixed, names, place, renames, text};
use crate::places::Places;
use eif_base::Place;
use eif_tree::{
    ClassTree, Clients, CreatorPart, ExportItem, FeatureClause, FeatureDecl, FeatureKind,
    FormalTree, Group, ParentClause,
};

fn group(places: Places, value: u64, group: &Group) -> u64
    ensures { result ≡ after value
        (its.group_numbers (reads_of places.entry) (group_view group.now)) }
{
    let named = names(places, value, &group.names);
    type_tree(places, named, &group.type_tree)
}

fn groups(places: Places, value: u64, groups: &[Group]) -> u64
    ensures { result ≡ after value
        (its.list_numbers (its.group_numbers (reads_of places.entry))
        (map group_view groups.now)) }
{
    let mut so_far = value;
    'groups: for one in groups {
        so_far = group(places, mixed(so_far, 1), one);
    }
    mixed(so_far, 0)
}

fn formal(places: Places, value: u64, formal: &FormalTree) -> u64
    ensures { result ≡ after value
        (its.formal_numbers (reads_of places.entry) (formal_view formal.now)) }
{
    let at = place(places, value, formal.place);
    maybe_type(places, text(at, formal.name.text()), &formal.constraint)
}

fn formals(places: Places, value: u64, formals: &[FormalTree]) -> u64
    ensures { result ≡ after value
        (its.list_numbers (its.formal_numbers (reads_of places.entry))
        (map formal_view formals.now)) }
{
    let mut so_far = value;
    'formals: for one in formals {
        so_far = formal(places, mixed(so_far, 1), one);
    }
    mixed(so_far, 0)
}

fn clients(places: Places, value: u64, clients: &Clients) -> u64
    ensures { result ≡ after value
        (its.clients_numbers (reads_of places.entry) (clients_view clients.now)) }
{
    names(places, flag(value, clients.stated), &clients.names)
}

fn every_feature(places: Places, value: u64, all: &Option<Place>) -> u64
    ensures { result ≡ after value
        (its.option_numbers (its.place_numbers (reads_of places.entry)) all.now) }
{
    match all {
        Some(at) => place(places, mixed(value, 1), *at),
        None => mixed(value, 0),
    }
}

fn export(places: Places, value: u64, item: &ExportItem) -> u64
    ensures { result ≡ after value
        (its.export_numbers (reads_of places.entry) (export_view item.now)) }
{
    let to = clients(places, value, &item.clients);
    names(places, every_feature(places, to, &item.all), &item.names)
}

fn exports(places: Places, value: u64, items: &[ExportItem]) -> u64
    ensures { result ≡ after value
        (its.list_numbers (its.export_numbers (reads_of places.entry))
        (map export_view items.now)) }
{
    let mut so_far = value;
    'items: for item in items {
        so_far = export(places, mixed(so_far, 1), item);
    }
    mixed(so_far, 0)
}

fn parent(places: Places, value: u64, clause: &ParentClause) -> u64
    ensures { result ≡ after value
        (its.parent_numbers (reads_of places.entry) (parent_view clause.now)) }
{
    let renamed = renames(
        places,
        type_tree(places, value, &clause.parent),
        &clause.renames,
    );
    let exported = exports(places, renamed, &clause.exports);
    let undefined = names(places, exported, &clause.undefines);
    let redefined = names(places, undefined, &clause.redefines);
    names(places, redefined, &clause.selects)
}

fn parents(places: Places, value: u64, clauses: &[ParentClause]) -> u64
    ensures { result ≡ after value
        (its.list_numbers (its.parent_numbers (reads_of places.entry))
        (map parent_view clauses.now)) }
{
    let mut so_far = value;
    'clauses: for clause in clauses {
        so_far = parent(places, mixed(so_far, 1), clause);
    }
    mixed(so_far, 0)
}

fn creator_part(places: Places, value: u64, part: &CreatorPart) -> u64
    ensures { result ≡ after value
        (its.creators_numbers (reads_of places.entry) (creators_view part.now)) }
{
    names(places, clients(places, value, &part.clients), &part.names)
}

fn creators(places: Places, value: u64, parts: &[CreatorPart]) -> u64
    ensures { result ≡ after value
        (its.list_numbers (its.creators_numbers (reads_of places.entry))
        (map creators_view parts.now)) }
{
    let mut so_far = value;
    'parts: for part in parts {
        so_far = creator_part(places, mixed(so_far, 1), part);
    }
    mixed(so_far, 0)
}

fn kind(places: Places, value: u64, kind: &FeatureKind) -> u64
    ensures { result ≡ after value
        (its.kind_numbers (reads_of places.entry) (kind_view kind.now)) }
{
    match kind {
        FeatureKind::Attribute => mixed(value, 0),
        FeatureKind::Constant(x) => literal(mixed(value, 1), x),
        FeatureKind::DeferredBody => mixed(value, 2),
        FeatureKind::Routine { locals, body } => {
            let local = groups(places, mixed(value, 3), locals);
            compound(places, local, body)
        }
    }
}

fn declaration(places: Places, value: u64, decl: &FeatureDecl) -> u64
    ensures { result ≡ after value
        (its.decl_numbers (reads_of places.entry) (decl_view decl.now)) }
{
    let named = names(places, value, &decl.names);
    let given = groups(places, named, &decl.arguments);
    let body = kind(places, maybe_type(places, given, &decl.result), &decl.kind);
    let required = claims(places, body, &decl.preconditions);
    claims(places, required, &decl.postconditions)
}

fn declarations(places: Places, value: u64, decls: &[FeatureDecl]) -> u64
    ensures { result ≡ after value
        (its.list_numbers (its.decl_numbers (reads_of places.entry)) (map decl_view decls.now)) }
{
    let mut so_far = value;
    'decls: for decl in decls {
        so_far = declaration(places, mixed(so_far, 1), decl);
    }
    mixed(so_far, 0)
}

fn feature_part(places: Places, value: u64, part: &FeatureClause) -> u64
    ensures { result ≡ after value
        (its.features_numbers (reads_of places.entry) (features_view part.now)) }
{
    declarations(places, clients(places, value, &part.clients), &part.decls)
}

fn features(places: Places, value: u64, parts: &[FeatureClause]) -> u64
    ensures { result ≡ after value
        (its.list_numbers (its.features_numbers (reads_of places.entry))
        (map features_view parts.now)) }
{
    let mut so_far = value;
    'parts: for part in parts {
        so_far = feature_part(places, mixed(so_far, 1), part);
    }
    mixed(so_far, 0)
}

/// One number for a class, by all of its parts.
pub fn class_digest(places: Places, class: &ClassTree) -> u64
    ensures { result
        ≡ digest (its.class_numbers (reads_of places.entry) (class_view class.now)) }
{
    let at = place(places, 0, class.place);
    let head = flag(text(at, class.name.text()), class.is_deferred);
    let generic = formals(places, head, &class.formals);
    let heir = parents(places, generic, &class.parents);
    let parts = features(
        places,
        creators(places, heir, &class.creators),
        &class.features,
    );
    claims(places, parts, &class.invariants)
}
