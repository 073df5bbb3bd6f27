//! Linear equations between variables and locations as formulas.
#![tactic(auto)]

pub mod laws;
