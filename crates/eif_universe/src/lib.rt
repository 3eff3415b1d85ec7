//! The universe of a system: the kernel's classes and the given ones, found by name, with their
//! ancestors and an order of inheritance; and what is broken in it.
#![tactic(auto)]

mod class_numbers;
mod class_rules;
mod classes;
mod graph;
mod inheritance;
mod judge;
mod kernel;
mod root_rules;
mod type_rules;
mod universe;

pub use kernel::{KERNEL_COUNT, kernel_trees};
pub use universe::{Universe, UniverseError, universe_crosses};

#[cfg(test)]
mod tests;
