//! The phase of signatures: the names of a class beside their entries, as the class sees them, its
//! creators, and the root procedure.
#![tactic(auto)]

mod check;
mod creators;
mod declared;
mod entries;
mod entry;
mod groups;
mod joined;
mod names;
mod root;

pub use check::check_redeclarations;
