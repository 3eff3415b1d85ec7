//! Systems that break no rule of the language; definitions alone.
#![tactic(auto)]
