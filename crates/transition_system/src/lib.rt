//! Fair transition systems: guarded transitions over locations and variables, their steps and their runs.
#![tactic(auto)]

pub mod systems;
pub mod transitions;

pub use observations::Fairness;
pub use systems::Fts;
pub use transitions::{Mode, Transition, after, enabled};
