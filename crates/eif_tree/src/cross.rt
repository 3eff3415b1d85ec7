use crate::class::{
    ClassTree, Clients, CreatorPart, ExportItem, FeatureClause, FeatureDecl, FeatureKind,
    FormalTree, Group, ParentClause,
};
use crate::tree::{
    Assertion, Branch, Expr, ExprKind, Instr, Literal, Mark, NameAt, Op, RenamePair, TypeTree,
};
use eif_base::{Bytes, Name, Place};

fn crosses<T: Send + Sync>() {}

/// Trees may be sent to another thread, and shared by threads.
pub fn trees_cross() {
    crosses::<Place>();
    crosses::<Name>();
    crosses::<Bytes>();
    crosses::<NameAt>();
    crosses::<RenamePair>();
    crosses::<Mark>();
    crosses::<Op>();
    crosses::<Literal>();
    crosses::<TypeTree>();
    crosses::<Expr>();
    crosses::<ExprKind>();
    crosses::<Assertion>();
    crosses::<Instr>();
    crosses::<Branch>();
    crosses::<Group>();
    crosses::<FormalTree>();
    crosses::<Clients>();
    crosses::<ExportItem>();
    crosses::<ParentClause>();
    crosses::<CreatorPart>();
    crosses::<FeatureKind>();
    crosses::<FeatureDecl>();
    crosses::<FeatureClause>();
    crosses::<ClassTree>();
}
