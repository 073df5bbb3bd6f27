//! Linear equations that are found hold in every state of every run of a program.
#![tactic(auto)]

pub mod laws;
