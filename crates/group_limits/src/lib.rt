//! Refusals of groups in words: paths as sequences of choices. No code; each law is the contract of a function that does nothing.
#![tactic(auto)]

pub mod laws;
