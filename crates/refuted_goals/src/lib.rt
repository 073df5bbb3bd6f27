//! Whether a schedule refutes a goal: the run that it gives is played, and the last goal of a proof is judged on it.
#![tactic(auto)]

mod denying;
pub mod laws;
mod playing;
mod refuting;

pub use refuting::refutes;
