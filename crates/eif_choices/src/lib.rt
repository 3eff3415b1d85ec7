//! What becomes of the features of its ancestors in a class that is judged: the candidates for each, the name that
//! dynamic binding uses, and all names that it has.
#![tactic(auto)]

mod above;
mod ancestor;
mod by_clause;
mod by_heir;
mod choices;
mod picked;
mod selected;

pub use choices::{Choices, choices_of};
pub use selected::selected_set;
