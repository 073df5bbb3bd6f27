//! A run that a schedule gives, as plain data: the state at each position with what changed, the move that is taken there, and
//! what each goal comes to.
#![tactic(auto)]

mod goals;
mod positions;
mod reading;
mod reporting;
mod standing;

pub use positions::Ground;
pub use proof_reports::RunReport;
pub use reading::{LONGEST, playable_schedule, raw_program, translated_program};
pub use reporting::{RunTexts, report_run};
