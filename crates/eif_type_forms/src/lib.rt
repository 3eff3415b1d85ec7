//! Types of classes in memory: compared, counted, copied, substituted, and read from class texts.
#![tactic(auto)]

mod compare;
mod copies;
mod marks;
mod put;
mod put_compare;
mod put_sizes;
mod resolution;
mod sizes;
mod substitution;
mod ty;

pub use compare::{same_type, same_types};
pub use copies::{copy_type, copy_types};
pub use marks::{mark_conforms, marked_mark, same_mark};
pub use put::{put_type, put_types};
pub use put_compare::{same_put, same_puts};
pub use put_sizes::count_puts;
pub use resolution::{resolve, resolve_all};
pub use sizes::count_names;
pub use substitution::{SubstError, substitute};
pub use ty::{Ty, own_formals, type_at};

#[cfg(test)]
mod tests;
