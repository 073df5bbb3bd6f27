//! When a certificate is valid for a condition, by rules, and that this is what the checker asks. No code; each law is the contract of a
//! function that does nothing.
#![tactic(auto)]

pub mod laws;
