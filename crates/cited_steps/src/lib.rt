//! Which steps of a proof none of its goals needs, through what is cited.
#![tactic(auto)]

mod needing;

pub use needing::unneeded_steps;
