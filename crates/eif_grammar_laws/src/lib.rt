//! The laws of the grammar, for all tokens: each form is read, what is read is the only tree, and
//! where a reading is refused there is none. A law is the contract of a function that does nothing.
#![tactic(auto)]

mod examples;
mod laws;

pub use examples::{broken_forms, worked_texts};
pub use laws::{class_laws, compound_laws, expression_laws, type_laws};
