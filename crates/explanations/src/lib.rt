//! What a proof lacks, as plain data: its steps with how many of their conditions hold, and each condition that isn't decided
//! valid with its place in both texts, the states before and behind the step, the false part of the claim, and what would help.
#![tactic(auto)]

mod cases;
mod excluding;
mod explaining;
mod failures;
pub mod laws;
mod mentions;
mod nets;
mod outlining;
mod parts;
mod refusing;
mod sentences;
mod sources;
mod spots;
mod steps;
mod tables;
mod turns;

pub use explaining::explain;
pub use outlining::outline;
pub use proof_reports::{Case, Failure, Item, Report, Row, Spot, StepReport, Turn};
pub use sources::Texts;
