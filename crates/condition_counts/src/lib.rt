//! How many conditions a proof asks for, step by step, without making them.
#![tactic(auto)]

mod counting;
mod rules;

pub use counting::{Counts, condition_counts};
