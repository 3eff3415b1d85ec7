//! The phase of features: each class is judged after its parents, where none of its ancestors has a
//! breach, and of each class without a breach a row is kept.
#![tactic(auto)]

mod class_row;
mod judged;
mod phase;
mod rows;

pub use phase::{TableError, class_rows};
