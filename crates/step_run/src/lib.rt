//! The program's one call over files and a sink that are handed in: it reads what the words name, checks or decides the
//! conditions of the script, and writes the report.
#![tactic(auto)]

mod acceptance;
mod checking;
mod counting;
mod crew;
mod deciding;
mod ends;
mod invariants;
pub mod laws;
mod pipeline;
mod posed;
mod proving;
mod refusals;
mod reports;
mod scripted;
mod source;
mod top;
mod tracing;
mod verifying;
mod work;
mod workload;

pub use step_plan::{FileRole, Status};
pub use step_workload::workload_texts;
pub use top::step_run;
