//! What is read of formulas and integer expressions of proofs, in the words of the grammar and of the list of broken rules. No
//! code; each law is the contract of a function that does nothing.
#![tactic(auto)]

pub mod laws;
