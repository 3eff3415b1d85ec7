//! The rules of classes, types and inheritance: what is broken in a system. Definitions alone.
#![tactic(auto)]
