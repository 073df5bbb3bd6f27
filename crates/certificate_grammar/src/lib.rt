//! Which texts hold valid certificates, as one relation, and that it is the blocks that are checked. No code; each law is the contract
//! of a function that does nothing.
#![tactic(auto)]

pub mod laws;
