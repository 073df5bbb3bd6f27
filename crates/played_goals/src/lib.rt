//! Goals on given runs, and on all runs: laws.
//!
//! A run that is played is one of the program's runs. So a goal that is proved never fails on it, and a failure on it refutes
//! the goal, also on each run that goes on from it.
#![tactic(auto)]

pub mod laws;
