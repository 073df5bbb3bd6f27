//! The answer to `verify` of large programs, whose conditions have certificates that are found by number, and none is unfolded.
#![tactic(auto)]

mod answering;

pub use answering::{found, large_proof};
