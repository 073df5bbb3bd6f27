//! Schedules from text: a value for each variable, and then the moves of a run.
//!
//! ```text
//! schedule = { name "=" value ";" } "::" { move ";" }
//! value    = [ "-" ] numeral | "true" | "false"
//! move     = "-" | ( name | numeral ) [ "." name ]
//! ```
//!
//! The tokens are those of programs. A move is `-` for idling, or the label or the number of a statement, counted from 1 in
//! text order, with `.entry` or `.exit` behind it for a cooperation.
#![tactic(auto)]

mod fault;
pub mod laws;
mod moving;
mod reading;
mod schedule;
mod setting;
mod value;

pub use fault::ScheduleFault;
pub use reading::read_schedule;
pub use schedule::Schedule;
