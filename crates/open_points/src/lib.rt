//! What a condition is that the search leaves open: laws.
#![tactic(auto)]

pub mod laws;
