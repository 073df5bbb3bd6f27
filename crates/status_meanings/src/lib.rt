//! What each exit status means: a law over the plans of runs. No code.
#![tactic(auto)]

pub mod laws;
