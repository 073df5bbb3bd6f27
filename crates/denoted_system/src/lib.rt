//! Which transition system a program denotes, in few lines, and that it is the one that programs are translated to. No code; each law is
//! the contract of a function that does nothing.
#![tactic(auto)]

pub mod laws;
