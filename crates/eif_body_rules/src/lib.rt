//! The rules of bodies: facts, types of expressions, what is surely set, and what is broken in them. Definitions alone.
#![tactic(auto)]
