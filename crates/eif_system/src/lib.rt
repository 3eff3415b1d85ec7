//! What a system of classes is: definitions alone.
#![tactic(auto)]
