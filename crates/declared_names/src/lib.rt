//! The names of a typed program are names of texts, and no two are the same. No code; the law is the contract of a function that
//! does nothing.
#![tactic(auto)]

pub mod laws;
