//! Which program a text is, as a relation by cases, and that typing gives it. No code; each law is the contract of a function that does
//! nothing.
#![tactic(auto)]

pub mod laws;
