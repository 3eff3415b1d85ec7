//! One function for each part of a class, by its parts.

ghost use Rattle.std.specs.Prelude.{◌≡◌, map};
ghost use Rattle.std.specs.Option.{option_map};
ghost use Rattle.eif_tree.specs.Tree as the;
ghost use Rattle.eif_tree.specs.View.{assertion_view, class_view, clients_view, creators_view, decl_view, export_view, exs_from, features_view, formal_view, group_view, inss_from, instr_view, kind_view, parent_view, type_view};

use crate::class::{
    ClassTree, Clients, CreatorPart, ExportItem, FeatureClause, FeatureDecl, FeatureKind,
    FormalTree, Group, ParentClause,
};
use crate::tree::{Assertion, Instr, Literal, NameAt, RenamePair, TypeTree};
use eif_base::{Name, Place};

/// Names of one type.
pub fn written_group(names: Vec<NameAt>, type_tree: TypeTree) -> Group
    ensures { group_view result ≡ record { names = names.items; type_tree = type_view type_tree } }
{
    Group { names, type_tree }
}

/// A formal generic parameter.
pub fn written_formal(place: Place, name: Name, constraint: Option<TypeTree>) -> FormalTree
    ensures { formal_view result ≡ record { place = place; name = name; constraint = option_map type_view constraint } }
{
    FormalTree {
        place,
        name,
        constraint,
    }
}

/// Clients.
pub fn written_clients(stated: bool, names: Vec<NameAt>) -> Clients
    ensures { clients_view result ≡ record { stated = stated; names = names.items } }
{
    Clients { stated, names }
}

/// New clients of features of a parent.
pub fn written_export(clients: Clients, all: Option<Place>, names: Vec<NameAt>) -> ExportItem
    ensures { export_view result ≡ record { clients = clients_view clients; all = all; names = names.items } }
{
    ExportItem {
        clients,
        all,
        names,
    }
}

/// A parent and what is changed in it.
pub fn written_parent(
    parent: TypeTree,
    renames: Vec<RenamePair>,
    exports: Vec<ExportItem>,
    undefines: Vec<NameAt>,
    redefines: Vec<NameAt>,
    selects: Vec<NameAt>,
) -> ParentClause
    ensures { parent_view result ≡ record {
      parent = type_view parent;
      renames = renames.items;
      exports = map export_view exports.items;
      undefines = undefines.items;
      redefines = redefines.items;
      selects = selects.items;
    } }
{
    ParentClause {
        parent,
        renames,
        exports,
        undefines,
        redefines,
        selects,
    }
}

/// Creation procedures.
pub fn written_creators(clients: Clients, names: Vec<NameAt>) -> CreatorPart
    ensures { creators_view result ≡ record { clients = clients_view clients; names = names.items } }
{
    CreatorPart { clients, names }
}

/// An attribute.
pub fn attribute() -> FeatureKind
    ensures { kind_view result ≡ the.attribute }
{
    FeatureKind::Attribute
}

/// A constant.
pub fn constant(value: Literal) -> FeatureKind
    ensures { kind_view result ≡ the.constant value }
{
    FeatureKind::Constant(value)
}

/// A deferred routine.
pub fn deferred_body() -> FeatureKind
    ensures { kind_view result ≡ the.deferred_body }
{
    FeatureKind::DeferredBody
}

/// A routine with a body.
pub fn routine(locals: Vec<Group>, body: Vec<Instr>) -> FeatureKind
    ensures { kind_view result ≡ the.routine (map group_view locals.items) (inss_from (map instr_view body.items)) }
{
    FeatureKind::Routine { locals, body }
}

/// A declaration of features.
pub fn written_decl(
    names: Vec<NameAt>,
    arguments: Vec<Group>,
    result_type: Option<TypeTree>,
    kind: FeatureKind,
    preconditions: Vec<Assertion>,
    postconditions: Vec<Assertion>,
) -> FeatureDecl
    ensures { decl_view result ≡ record {
      names = names.items;
      arguments = map group_view arguments.items;
      result_type = option_map type_view result_type;
      kind = kind_view kind;
      preconditions = exs_from (map assertion_view preconditions.items);
      postconditions = exs_from (map assertion_view postconditions.items);
    } }
{
    FeatureDecl {
        names,
        arguments,
        result: result_type,
        kind,
        preconditions,
        postconditions,
    }
}

/// Declarations with the same clients.
pub fn written_features(clients: Clients, decls: Vec<FeatureDecl>) -> FeatureClause
    ensures { features_view result ≡ record { clients = clients_view clients; decls = map decl_view decls.items } }
{
    FeatureClause { clients, decls }
}

/// A class.
pub fn written_class(
    place: Place,
    name: Name,
    is_deferred: bool,
    formals: Vec<FormalTree>,
    parents: Vec<ParentClause>,
    creators: Vec<CreatorPart>,
    features: Vec<FeatureClause>,
    invariants: Vec<Assertion>,
) -> ClassTree
    ensures { class_view result ≡ record {
      place = place;
      name = name;
      is_deferred = is_deferred;
      formals = map formal_view formals.items;
      parents = map parent_view parents.items;
      creators = map creators_view creators.items;
      features = map features_view features.items;
      invariants = exs_from (map assertion_view invariants.items);
    } }
{
    ClassTree {
        place,
        name,
        is_deferred,
        formals,
        parents,
        creators,
        features,
        invariants,
    }
}
