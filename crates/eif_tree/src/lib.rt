//! The trees of class texts, a builder for each form, and how high they are.
#![tactic(auto)]

pub mod builders;
mod class;
pub mod class_builders;
mod cross;
mod heights;
mod places;
mod tree;

pub use class::{
    ClassTree, Clients, CreatorPart, ExportItem, FeatureClause, FeatureDecl, FeatureKind,
    FormalTree, Group, ParentClause,
};
pub use cross::trees_cross;
pub use heights::{compound_height, height, instr_height, type_height};
pub use places::place_of;
pub use tree::{
    Assertion, Branch, Expr, ExprKind, Instr, Literal, Mark, NameAt, Op, RenamePair, TypeTree,
};
