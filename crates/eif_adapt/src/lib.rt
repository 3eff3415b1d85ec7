//! What a parent clause of a class makes of the features of its class, and what is broken in it.
#![tactic(auto)]

mod adaptation;
mod adapted;
mod clause;
mod clients;
mod crosses;
mod feature_sets;
mod first_places;
mod indexed_clause;
mod parent_feature;
mod rules;

pub use adaptation::adapt;
pub use adapted::{Adapted, AdaptedEntry};
pub use crosses::adapt_crosses;
pub use indexed_clause::IndexedClause;
pub use parent_feature::{ParentFeature, ParentState};

#[cfg(test)]
mod tests;
