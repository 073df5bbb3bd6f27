//! The command line of `milkhour`, as one table, and the reader of words over it.
#![tactic(auto)]

mod commands;
mod definition;
mod meant;
mod options;
mod plain;
mod reading;
mod request;

pub use commands::{CommandRow, FileRow, QUESTIONS, TOOLS, VERSION};
pub use meant::command_meant;
pub use options::{OptionRow, OptionValue};
pub use reading::read_words;
pub use request::{Colour, FileNames, Format, Layout, Options, Request, Rewriting, Task, Work};
