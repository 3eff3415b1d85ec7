//! The class of a class text, or why there is none. Recursive descent, one function for each form of the grammar.
#![tactic(auto)]

mod class;
mod error;
mod features;
mod groups;
mod heads;
mod names;
mod notes;
mod parents;
mod routines;
#[cfg(test)]
mod tests;

pub use class::parse_class;
pub use error::ParseError;
