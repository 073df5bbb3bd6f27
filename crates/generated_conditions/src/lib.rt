//! Which conditions the proof rules generate, said compactly, and that they are those of the scripts' laws. No code; the law is the contract
//! of a function that does nothing.
#![tactic(auto)]

pub mod laws;
