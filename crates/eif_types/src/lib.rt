//! The types of a universe: what classes give the formals of their ancestors, the constraints of
//! formals, conformance; and the rules that derivations and the actuals of written types break.
#![tactic(auto)]

mod actual_faults;
mod build;
mod class_faults;
mod conformance;
mod constraints;
mod types;

pub use build::TypeError;
pub use eif_type_forms::{SubstError, Ty, substitute};
pub use types::{Types, types_cross};

#[cfg(test)]
mod tests;
