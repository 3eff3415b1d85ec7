//! What is judged of a system: the phases of rules in their order, and the classes that this version judges. Definitions
//! alone.
#![tactic(auto)]
