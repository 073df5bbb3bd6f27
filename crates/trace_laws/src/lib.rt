//! The laws of given runs: a name leads one way, and a played schedule is a run.
#![tactic(auto)]

pub mod laws;
