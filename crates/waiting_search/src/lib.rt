//! Levels of waiting-fors, found as invariants of a program with a monitor beside it.
#![tactic(auto)]

mod arrivals;
mod claim;
mod lessening;
mod levels;
mod monitor;
mod watching;

pub use claim::WaitingFor;
pub use lessening::lessened;
pub use levels::{Level, Levels};
pub use monitor::Monitor;
pub use watching::{Kept, Watched, watch};
