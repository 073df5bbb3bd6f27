//! Which limit of programs a text passes first, and the place that is named: what the limits count stands in the order of the
//! text. No code; each law is the contract of a function that does nothing.
#![tactic(auto)]

pub mod laws;
