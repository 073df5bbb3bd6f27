//! Elimination of variables from lines: a contradiction with its picks, or none, with a trial point.
//!
//! The definition and its laws stand in `elimination_laws`; here is the code, on sparse rows that carry their picks.
#![tactic(auto)]

mod halt;
mod merging;
mod mixing;
mod point;
mod row;
mod stage;
mod top;

pub use elimination_laws::WideStage;
pub use top::{Elimination, eliminate};
