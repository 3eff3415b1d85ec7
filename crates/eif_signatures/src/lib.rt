//! Signatures in memory: as declarations write them, with actuals put in, and compared; and the features
//! of a system with their signatures.
#![tactic(auto)]

mod pairs;
mod signature;
mod sizes;
mod system;

pub use pairs::{
    are_equal, are_of_one_form, fits, has_conforming_result, have_equal_arguments,
    have_equal_count, have_equal_results,
};
pub use signature::{Signature, declared_signature, with_actuals};
pub use sizes::has_large_type;
pub use system::{System, is_attribute};
