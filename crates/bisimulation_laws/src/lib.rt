//! A program and its translation are bisimilar: laws.
//!
//! The image of a state of a program is the situation that is seen of it. It is a bisimulation between the states that runs
//! of the program reach and the translation's, so the two have the same runs.
#![tactic(auto)]

pub mod laws;
