//! The rules of features, of derivations and of signatures: what is broken in a system whose universe is in order.
//! Definitions alone.
#![tactic(auto)]
