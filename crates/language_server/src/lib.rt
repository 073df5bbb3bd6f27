//! A language server for programs and proofs, as a function from messages to messages (*Language Server Protocol Specification*,
//! 3.17).
#![tactic(auto)]

mod actions;
mod asked;
mod changes;
mod definitions;
mod diagnostics;
mod documents;
mod formatting;
mod framing;
mod names;
mod places;
mod protocol;
mod publishing;
mod replies;
mod server;
mod session;
mod texts;
mod verdicts;

pub use server::Stage;
pub use session::{Session, Wanted};
pub use texts::Disk;
