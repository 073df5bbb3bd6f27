//! Which token lists spell which proof scripts, production by production and with no rule asked, which rules a script breaks, and
//! the laws that tie both to the reader. No code; each law is the contract of a function that does nothing.
#![tactic(auto)]

pub mod laws;
