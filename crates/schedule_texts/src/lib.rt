//! Moves as schedules write them.
#![tactic(auto)]

mod moves;

pub use moves::{move_text, part_text};
