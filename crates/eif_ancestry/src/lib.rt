//! The ancestors of classes that are numbers, and an order of the classes in which each stands
//! after its parents.
#![tactic(auto)]

mod ancestors;
mod order;
mod walk;

pub use ancestors::Ancestors;
pub use order::{ancestors_first, inheritance_order};
pub use walk::ancestors_of_all;

#[cfg(test)]
mod tests;
