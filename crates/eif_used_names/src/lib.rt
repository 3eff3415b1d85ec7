//! The names that a declaration uses of its own class.
#![tactic(auto)]

mod used;

pub use used::used_names;

#[cfg(test)]
mod tests;
