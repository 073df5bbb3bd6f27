//! The lines and columns of a text, for people and for editors.
#![tactic(auto)]

mod lines;
mod units;

pub use lines::{Lines, Position};
pub use units::Units;
