//! The host as a program meets it: its files and its output as the top call asks for them, the words of the command line,
//! whole texts in and whole files out.
#![tactic(auto)]

mod host_files;
mod host_sink;
mod whole_texts;
mod words;

pub use host_files::HostFiles;
pub use host_sink::HostSink;
pub use whole_texts::{file_text, input_text, replace_file};
pub use words::given_words;
