//! Which token lists spell which proof scripts, production by production, and the laws that scripts are read exactly where they
//! are spelled. No code; each law is the contract of a function that does nothing.
#![tactic(auto)]

pub mod laws;
