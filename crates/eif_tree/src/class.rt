use crate::tree::{Assertion, Instr, Literal, NameAt, RenamePair, TypeTree};
use eif_base::{Name, Place};

/// Arguments or locals that share one type.
#[derive(Drop)]
pub struct Group {
    pub names: Vec<NameAt>,
    pub type_tree: TypeTree,
}

/// A formal generic parameter. Its place is that of its name.
#[derive(Drop)]
pub struct FormalTree {
    pub place: Place,
    pub name: Name,
    pub constraint: Option<TypeTree>,
}

/// The classes that may use a feature. Where no list is written, `stated` is false and there are
/// no names.
#[derive(Drop)]
pub struct Clients {
    pub stated: bool,
    pub names: Vec<NameAt>,
}

/// Features of a parent and their new clients. `all` is the place of the word that stands for
/// every feature.
#[derive(Drop)]
pub struct ExportItem {
    pub clients: Clients,
    pub all: Option<Place>,
    pub names: Vec<NameAt>,
}

/// A parent, and what the class changes in what it inherits.
#[derive(Drop)]
pub struct ParentClause {
    pub parent: TypeTree,
    pub renames: Vec<RenamePair>,
    pub exports: Vec<ExportItem>,
    pub undefines: Vec<NameAt>,
    pub redefines: Vec<NameAt>,
    pub selects: Vec<NameAt>,
}

/// Creation procedures, and who may create by them.
#[derive(Drop)]
pub struct CreatorPart {
    pub clients: Clients,
    pub names: Vec<NameAt>,
}

/// What a feature is.
#[derive(Drop)]
pub enum FeatureKind {
    Attribute,
    Constant(Literal),
    DeferredBody,
    Routine {
        locals: Vec<Group>,
        body: Vec<Instr>,
    },
}

/// Features with one declaration. Notes and obsolete parts are not kept.
#[derive(Drop)]
pub struct FeatureDecl {
    pub names: Vec<NameAt>,
    pub arguments: Vec<Group>,
    pub result: Option<TypeTree>,
    pub kind: FeatureKind,
    pub preconditions: Vec<Assertion>,
    pub postconditions: Vec<Assertion>,
}

/// Declarations that have the same clients.
#[derive(Drop)]
pub struct FeatureClause {
    pub clients: Clients,
    pub decls: Vec<FeatureDecl>,
}

/// A class text. Its place is that of the class's name.
#[derive(Drop)]
pub struct ClassTree {
    pub place: Place,
    pub name: Name,
    pub is_deferred: bool,
    pub formals: Vec<FormalTree>,
    pub parents: Vec<ParentClause>,
    pub creators: Vec<CreatorPart>,
    pub features: Vec<FeatureClause>,
    pub invariants: Vec<Assertion>,
}
