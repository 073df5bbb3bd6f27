//! The words of a command line, read by one command of clap: which of the six requests they make, and how many workers
//! it may use.
#![tactic(auto)]

mod definition;
mod fault;
pub mod laws;
mod parsing;
mod request;

pub use fault::WordsFault;
pub use request::{CommandLine, Request, read_request};
