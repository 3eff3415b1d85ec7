//! What classes give the formals of their ancestors, filled in order of inheritance, and the rules
//! that these derivations break.
#![tactic(auto)]

mod clause;
mod derivation;
mod derived;
mod digest;
mod fill;
mod lists;
mod row_of_class;
mod ways;

pub use fill::Derivations;
