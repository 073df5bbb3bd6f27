//! Which programs break no rule, said of the program that a tree stands for, and that typing says the same. No code; each law is the
//! contract of a function that does nothing.
#![tactic(auto)]

pub mod laws;
