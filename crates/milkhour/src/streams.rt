//! What is said, and where: results on standard output or in a file, all else on standard error.

use crate::trouble::Trouble;
use clap::Error;
use clap::error::ErrorKind;
use host_outside::replace_file;
use milkhour_run::Status;
use milkhour_words::Colour;
use screens::Style;
use std::env;
use std::io::{self, Eprint, Print, Write};
use std::rt::{Env, Files};

/// What is known of the streams when the run begins: which of them are terminals.
#[derive(Clone, Copy)]
pub struct Streams {
    pub is_input_terminal: bool,
    pub is_output_terminal: bool,
    pub is_error_terminal: bool,
}

/// Where a text goes.
#[derive(Clone, Copy)]
pub enum Target<'a> {
    /// Standard output, or the file that is named in its place.
    Result(Option<&'a str>),
    /// Standard error.
    Remark,
}

impl Streams {
    /// Whether somebody types and sees what is answered.
    pub fn are_interactive(self) -> bool {
        self.is_input_terminal && self.is_output_terminal
    }
}

impl Target<'_> {
    fn is_terminal(self, streams: Streams) -> bool {
        match self {
            Target::Result(None) => streams.is_output_terminal,
            Target::Result(Some(_)) => false,
            Target::Remark => streams.is_error_terminal,
        }
    }
}

/// Columns of a terminal that doesn't say how many it has.
const WIDTH: usize = 100;

/// How many columns there are, as `COLUMNS` says.
fn columns<R: Env + AllocGlobal>(rt: &R) -> usize {
    match env::var(rt, "COLUMNS") {
        Ok(text) => text.parse::<usize>().unwrap_or(WIDTH).clamp(20, 1000),
        Err(_) => WIDTH,
    }
}

/// How a text is written that goes to a target.
pub fn style_of<R: Env + AllocGlobal>(
    rt: &R,
    streams: Streams,
    target: Target<'_>,
    colour: Colour,
) -> Style {
    Style {
        colour: has_colours(rt, target.is_terminal(streams), colour),
        width: columns(rt),
    }
}

/// Whether a text has colours: as the option says, or on a terminal unless `NO_COLOR` is set to something.
fn has_colours<R: Env + AllocGlobal>(rt: &R, is_terminal: bool, colour: Colour) -> bool {
    match colour {
        Colour::Always => true,
        Colour::Never => false,
        Colour::Auto => match env::var(rt, "NO_COLOR") {
            Ok(text) if !text.is_empty() => false,
            _ => is_terminal,
        },
    }
}

/// Prints help, the version, or what is wrong with the words, and answers the status.
pub fn refuse_words<R: Print + Eprint>(rt: &R, refusal: &Error) -> Result<u8, Trouble> {
    if refusal.kind() == ErrorKind::OutOfMemory {
        return Err(Trouble::Memory);
    }
    if let Err(error) = refusal.print(rt) {
        return Err(Trouble::Writing(error));
    }
    if refusal.use_stderr() {
        Ok(Status::Words.number())
    } else {
        Ok(Status::Proved.number())
    }
}

/// Says why a run ended without an answer, and answers the status. Where not even this can be written, the status says it.
pub fn tell_trouble<R: Eprint>(rt: &R, trouble: &Trouble) -> u8 {
    let _ = eprintln!(rt; "milkhour: {trouble}");
    trouble.status().number()
}

/// Writes a result to the file that is named, or to standard output.
pub fn write_result<R: Print + Files + AllocGlobal>(
    rt: &R,
    output: Option<&str>,
    bytes: &[u8],
) -> Result<(), Trouble> {
    let written = match output {
        Some(name) => replace_file(rt, rt.alloc(), name, bytes),
        None => io::writer(rt).write_all(bytes),
    };
    match written {
        Ok(()) => Ok(()),
        Err(error) => Err(Trouble::Writing(error)),
    }
}

/// Writes a refusal or a remark to standard error.
pub fn write_remark<R: Eprint>(rt: &R, text: &str) -> Result<(), Trouble> {
    match eprint!(rt; "{text}") {
        Ok(()) => Ok(()),
        Err(error) => Err(Trouble::Writing(error)),
    }
}
