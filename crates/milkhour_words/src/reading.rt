//! The reader of words.

use crate::definition::command_line;
use crate::meant::{command_behind, command_meant};
use crate::plain::plain_request;
use crate::request::{
    Colour, FileNames, Format, Layout, Options, QUESTIONS, Request, Rewriting, SHOWN, Task, Work,
};
use clap::error::ErrorKind;
use clap::{ArgMatches, Command, Error};
use std::alloc::{AllocError, Global};

fn format_named(name: Option<&str>) -> Format {
    match name {
        Some("plain") => Format::Plain,
        Some("json") => Format::Json,
        Some("html") => Format::Html,
        _ => Format::Text,
    }
}

fn colour_named(name: Option<&str>) -> Colour {
    match name {
        Some("always") => Colour::Always,
        Some("never") => Colour::Never,
        _ => Colour::Auto,
    }
}

/// The number that stands behind an option. clap has taken none outside its range, which fits.
fn number(matches: &ArgMatches<'_>, id: &str, otherwise: u32) -> u32 {
    match matches.get_one::<u32>(id) {
        Some(number) => number,
        None => otherwise,
    }
}

/// Whether certificates of version 3 are asked for.
fn asks_for_shared(matches: &ArgMatches<'_>) -> bool {
    matches.get_str("version") == Some("3")
}

fn options_of<'a>(matches: &ArgMatches<'a>) -> Options<'a> {
    let limit = if matches.get_flag("first") {
        1
    } else {
        number(matches, "limit", SHOWN)
    };
    Options {
        format: format_named(matches.get_str("format")),
        colour: colour_named(matches.get_str("color")),
        limit,
        workers: number(matches, "workers", 1).clamp(1, 64),
        budget: number(matches, "budget", QUESTIONS) as u64,
        goals: matches.get_str("goals"),
        only: matches.get_str("only"),
        smt: matches.get_flag("smt"),
        from: matches.get_str("from"),
        step: matches.get_flag("step"),
        shared: asks_for_shared(matches),
        output: matches.get_str("output"),
    }
}

pub(crate) fn task_named(name: &str) -> Option<Task> {
    match name {
        "verify" => Some(Task::Verify),
        "check" => Some(Task::Check),
        "prove" => Some(Task::Prove),
        "trace" => Some(Task::Trace),
        "invariants" => Some(Task::Invariants),
        "find" => Some(Task::Find),
        "conditions" => Some(Task::Conditions),
        "draw" => Some(Task::Draw),
        _ => None,
    }
}

/// Whether the last file is one of certificates, or a schedule.
fn has_third(task: Task) -> bool {
    matches!(task, Task::Check | Task::Trace)
}

pub(crate) fn file_names<'a>(
    task: Task,
    names: &[&'a str],
    drawing: Option<&'a str>,
) -> Option<FileNames<'a>> {
    match (names, has_third(task)) {
        ([program], _) if task != Task::Check => Some(FileNames {
            program,
            proof: None,
            third: None,
            drawing,
        }),
        ([program, proof], false) => Some(FileNames {
            program,
            proof: Some(proof),
            third: None,
            drawing,
        }),
        ([program, third], true) => Some(FileNames {
            program,
            proof: None,
            third: Some(third),
            drawing,
        }),
        ([program, proof, third], true) => Some(FileNames {
            program,
            proof: Some(proof),
            third: Some(third),
            drawing,
        }),
        _ => None,
    }
}

fn work_of<'a>(name: &str, matches: &ArgMatches<'a>) -> Option<Work<'a>> {
    let task = task_named(name)?;
    let drawing = matches.get_str("drawing");
    let files = file_names(task, matches.get_strs("files")?, drawing)?;
    Some(Work {
        task,
        files,
        options: options_of(matches),
    })
}

fn explained<'a>(matches: &ArgMatches<'a>) -> Request<'a> {
    Request::Explain(matches.get_str("files"))
}

fn layout_of<'a>(matches: &ArgMatches<'a>) -> Option<Layout<'a>> {
    Some(Layout {
        file: matches.get_str("files")?,
        output: matches.get_str("output"),
        check: matches.get_flag("check"),
    })
}

fn rewriting_of<'a>(matches: &ArgMatches<'a>) -> Option<Rewriting<'a>> {
    Some(Rewriting {
        file: matches.get_str("files")?,
        output: matches.get_str("output"),
        shared: asks_for_shared(matches),
    })
}

fn request_in<'a>(matches: &ArgMatches<'a>) -> Option<Request<'a>> {
    match matches.subcommand() {
        Some(("explain", below)) => Some(explained(below)),
        Some(("fmt", below)) => Some(Request::Layout(layout_of(below)?)),
        Some(("certs", below)) => Some(Request::Rewrite(rewriting_of(below)?)),
        Some((name, below)) => Some(Request::Work(work_of(name, below)?)),
        None => None,
    }
}

/// Whether the words ask for a language server, with what editors add.
fn asks_to_serve(words: &[String]) -> bool {
    match words {
        [_, command] => command.as_str() == "lsp",
        [_, command, stream] => command.as_str() == "lsp" && stream.as_str() == "--stdio",
        _ => false,
    }
}

/// The first word, if there is one.
fn first_word(words: &[String]) -> &str {
    match words.get(1) {
        Some(word) => word.as_str(),
        None => "",
    }
}

/// What is meant by a first word that is no command: what another tool calls so, or the command that stands behind it.
fn tip(alloc: Global, words: &[String]) -> Result<Option<String>, AllocError> {
    let word = first_word(words);
    if word == "version" {
        return Ok(Some(String::from_str(alloc, "'--version' may be meant")?));
    }
    if let Some(row) = command_meant(word) {
        return Ok(Some(format!(in alloc; "'{}' may be meant: {}", row.name, row.about)?));
    }
    match command_behind(words) {
        Some(row) => Ok(Some(format!(in alloc; "the command comes first: {}", row.usage)?)),
        None => Ok(None),
    }
}

/// A refusal of the first word with a tip, where there is one; as it is where it is of anything else.
fn advised<'a>(
    alloc: Global,
    line: &mut Command<'a>,
    words: &[String],
    refusal: Error,
) -> Result<Error, AllocError> {
    if refusal.kind() != ErrorKind::InvalidSubcommand {
        return Ok(refusal);
    }
    let Some(tip) = tip(alloc, words)? else {
        return Ok(refusal);
    };
    let word = first_word(words);
    let message = format!(in alloc; "unrecognized subcommand '{word}'\n\n  tip: {tip}")?;
    line.error(ErrorKind::InvalidSubcommand, message.as_str())
}

/// Reads the words, the program's name first. A refusal prints itself: help and the version on standard output, mistakes on
/// standard error. Behind `step` no word is looked at.
pub fn read_words<'a>(alloc: Global, words: &'a [String]) -> Result<Request<'a>, Error> {
    if let Some(word) = words.get(1) {
        if word.as_str() == "step" {
            return Ok(Request::Step);
        }
    }
    if asks_to_serve(words) {
        return Ok(Request::Serve);
    }
    if let Some(request) = plain_request(alloc, words)? {
        return Ok(request);
    }
    let mut line = command_line(alloc, first_word(words))?;
    let matches = match line.try_get_matches_from_mut(words) {
        Ok(matches) => matches,
        Err(refusal) => return Err(advised(alloc, &mut line, words, refusal)?),
    };
    match request_in(&matches) {
        Some(request) => Ok(request),
        None => Err(line.error(ErrorKind::InvalidValue, "no such words")?),
    }
}
