//! Laws of the typing of programs that were read from texts.
#![tactic(auto)]

pub mod laws;
