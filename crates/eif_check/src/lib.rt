//! The check of a system: what its texts are, and what is broken in them and in their classes.
#![tactic(auto)]

mod check;
mod faults;
mod laws;
mod mention;
mod plain;
mod signatures;
mod texts;

pub use check::check_system;
pub use laws::one_reading;

#[cfg(test)]
mod tests;
