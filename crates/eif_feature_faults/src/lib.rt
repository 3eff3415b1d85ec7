//! The rules of the features of a class: of what it declares, of its names, of selection and of
//! replication.
#![tactic(auto)]

mod candidates;
mod constants;
mod declarations;
mod name_counts;
mod names;
mod replication;
mod selection;
mod standing;

pub use declarations::push_declaration_faults;
pub use names::push_name_faults;
pub use replication::push_replication_faults;
pub use selection::push_selection_faults;

#[cfg(test)]
mod tests;
