//! What status 1 of a search for certificates says: a law over the plans of runs.
#![tactic(auto)]

pub mod laws;
