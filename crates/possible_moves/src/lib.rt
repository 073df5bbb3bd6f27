//! The moves that may be taken from a state of a run, as plain data, and what a line of input chooses among them.
#![tactic(auto)]

mod beginning;
mod choosing;
mod reaching;
mod reporting;
mod schedules;

pub use beginning::first_schedule;
pub use choosing::{Choice, choice_of};
pub use proof_reports::{MoveReport, MovesReport};
pub use reaching::{Reached, reach};
pub use reporting::{MoveTexts, report_moves};
