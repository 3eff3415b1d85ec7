//! The features of all classes of a universe, as tables: names, versions, sources of signatures,
//! clients, fields, dynamic binding, and a numbering of all names.
#![tactic(auto)]

mod numbering;
mod origin;
mod row_entry;
mod tables;

pub use eif_class_rows::TableError;
pub use origin::Origin;
pub use row_entry::RowEntry;
pub use tables::{Tables, tables_cross};

#[cfg(test)]
mod tests;
