//! The worked examples of the rules, and the worked runs, are of trees; here each is compared with what the parser gives
//! for its class text.
#![tactic(auto)]

mod binding_runs;
mod body_rules;
mod classes;
mod creation_flow;
mod creation_order;
mod expressions;
mod feature_examples;
mod feature_rules;
mod generic_runs;
mod instructions;
mod kernel_runs;
mod local_flow;
mod operator_runs;
mod order_runs;
mod parts;
mod places;
mod rows;
mod signature_rules;
#[cfg(test)]
mod tests;
mod type_examples;
mod universe_rules;
mod wrong_runs;

pub use binding_runs::sparse_binding_runs_digests;
pub use body_rules::body_rules_digests;
pub use classes::class_digest;
pub use creation_flow::sparse_creation_flow_digests;
pub use creation_order::sparse_creation_order_digests;
pub use feature_examples::sparse_feature_examples_digests;
pub use feature_rules::{feature_rules_digests, sparse_feature_rules_digests};
pub use generic_runs::sparse_generic_runs_digests;
pub use kernel_runs::sparse_kernel_runs_digests;
pub use local_flow::local_flow_digests;
pub use operator_runs::sparse_operator_runs_digests;
pub use order_runs::sparse_order_runs_digests;
pub use places::Places;
pub use signature_rules::{signature_rules_digests, sparse_signature_rules_digests};
pub use type_examples::sparse_type_examples_digests;
pub use universe_rules::universe_rules_digests;
pub use wrong_runs::sparse_wrong_runs_digests;
