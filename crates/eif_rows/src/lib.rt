//! What is kept of the features of a class: its names, where their versions come from, their clients, and the names that
//! the features of its ancestors have in it. Names stand in the order of their bytes, and a feature's number is the
//! place of its name.
#![tactic(auto)]

mod ancestor_row;
mod declaration_id;
mod feature;
mod names;
mod row;
mod version;

pub use ancestor_row::AncestorRow;
pub use declaration_id::DeclarationId;
pub use feature::{DeclarationPlace, FeatureRow};
pub use names::{find_name, ordered_classes, ordered_features, ordered_names};
pub use row::{Row, rows_cross};
pub use version::Version;

#[cfg(test)]
mod tests;
