//! What the trees of class texts have by the grammar alone; definitions.
#![tactic(auto)]
