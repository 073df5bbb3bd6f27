//! What is told of a formula by a state of which not all is known.
#![tactic(auto)]

pub mod laws;
mod telling;

pub use telling::{Known, told};
