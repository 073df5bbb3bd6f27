//! What runs of the program have to do with each other: a law over their plans.
#![tactic(auto)]

pub mod laws;
