//! What formulas are printed as is read back as them. No code; each law is the contract of a function that does nothing.
#![tactic(auto)]

pub mod laws;
