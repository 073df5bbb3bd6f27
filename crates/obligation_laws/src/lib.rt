//! What valid conditions prove of a program.
#![tactic(auto)]

pub mod laws;
