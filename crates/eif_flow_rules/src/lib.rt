//! Creation flow: what a body needs and sets of the object that it runs on, and the rules of
//! creation. Definitions alone.
#![tactic(auto)]
