//! What a class text writes, lent: its parent clauses, its types, and the faults that are told of it.
#![tactic(auto)]

mod clauses;
mod lent_fault;
mod nested;
mod outermost;
mod written;

pub use clauses::{any_clauses, clauses_of};
pub use lent_fault::{LentFault, push_fault, push_where};
pub use nested::nested_types;
pub use written::{Owner, WrittenType, written_types};

#[cfg(test)]
mod tests;
