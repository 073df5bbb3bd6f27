//! The answer of `step` over files that are lent: its status with its text, as values.
#![tactic(auto)]

mod answer;
mod text_sink;

pub use answer::{Answer, answered};
pub use step_run::Status;
pub use text_sink::TextSink;
