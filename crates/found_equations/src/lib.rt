//! What `invariants` says of the equations that it found: a law over its plan.
#![tactic(auto)]

pub mod laws;
