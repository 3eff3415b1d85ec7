//! Types, expressions and instructions, from tokens.
#![tactic(auto)]

mod branches;
mod call_instructions;
mod chains;
mod claims;
mod compounds;
mod expressions;
mod instructions;
mod leaves;
pub mod look;
mod loops;
mod object_tests;
mod operands;
mod operators;
mod parsed;
mod part;
mod primaries;
mod targets;
#[cfg(test)]
mod tests;
mod types;

pub use claims::{assertions, invariants, semis};
pub use compounds::compound;
pub use parsed::{Parsed, PartError};
pub use part::{parse_compound, parse_expr, parse_type};
pub use types::{unmarked_type, written_type};
