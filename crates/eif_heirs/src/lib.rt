//! A class while its features are judged: what its parent clauses make of the features of its parents, what it declares,
//! its names, and what it has under each.
#![tactic(auto)]

mod class_names;
mod clauses;
mod clients;
mod declared;
mod drafts;
mod heir;
mod parent_features;
mod parts;
mod redefines;
mod sources;
mod versions;

pub use clauses::{Clause, adapted_clauses};
pub use declared::{DeclaredName, declared_names};
pub use drafts::{FeatureDraft, feature_drafts};
pub use heir::{EntryId, Heir, NameSources};
pub use redefines::final_names;
