//! Runs as plans: a run ends with an outcome, or it asks for the bytes of a file and goes on with them. Here are the plans,
//! the stages of the code that follow them, and the two edges of a run, where files are read and the output is written.
#![tactic(auto)]

mod asking;
mod ended;
mod ends;
mod limits;
mod reading;
mod stage;
mod status;
mod writing;

pub use asking::ask;
pub use ended::Ended;
pub use ends::end;
pub use limits::limited;
pub use stage::Stage;
pub use status::Status;
pub use step_report::{End, FileRole};
pub use writing::write_whole;
