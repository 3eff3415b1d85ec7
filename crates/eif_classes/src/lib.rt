//! What the classes of a system have: features with their origins, names and clients, and types.
//! Definitions alone.
#![tactic(auto)]
