//! The table of commands as it is defined for clap.

use crate::commands::{CommandRow, QUESTIONS, TOOLS, VERSION};
use crate::meant::command_named;
use crate::options::{OptionRow, OptionValue};
use clap::builder::ValueParser;
use clap::{Arg, ArgAction, Command, value_parser};
use std::alloc::{AllocError, Global};

const STATUSES: &str =
    "Status 0: proved; 1: not proved; 2: words; 3: program; 4: proof; 5: trailing text; 6: reading; 7: writing; 8: a limit; 9: memory;\n10 to 12: schedule; 13: equations. `milkhour explain 1` says more.";

fn named_arg<'a>(alloc: Global, row: &OptionRow) -> Arg<'a> {
    let arg = Arg::new(alloc, row.long).long(row.long).help(row.help);
    match row.short {
        Some(short) => arg.short(short),
        None => arg,
    }
}

fn choice_arg<'a>(
    arg: Arg<'a>,
    name: &'a str,
    choices: &'a [&'a str],
    default: &'a str,
) -> Arg<'a> {
    arg.value_name(name)
        .value_parser(ValueParser::Names(choices))
        .default_value(default)
}

fn number_arg<'a>(arg: Arg<'a>, least: i64, most: i64, default: &'a str) -> Arg<'a> {
    arg.value_name("N")
        .value_parser(value_parser!(u64).range(least..=most))
        .default_value(default)
}

fn option_arg<'a>(alloc: Global, row: &OptionRow) -> Arg<'a> {
    let arg = named_arg(alloc, row);
    match row.value {
        OptionValue::Flag => arg.action(ArgAction::SetTrue),
        OptionValue::Word(name) => arg.value_name(name),
        OptionValue::Choice(name, choices, default) => choice_arg(arg, name, choices, default),
        OptionValue::Number(least, most, default) => number_arg(arg, least, most, default),
    }
}

fn files_arg<'a>(alloc: Global, row: &CommandRow) -> Arg<'a> {
    Arg::new(alloc, "files")
        .value_name(row.files.usage)
        .num_args(row.files.least..=row.files.most)
        .required(0 < row.files.least)
        .help(row.files.help)
}

fn subcommand<'a>(alloc: Global, row: &CommandRow) -> Result<Command<'a>, AllocError> {
    let mut command = Command::new(alloc, row.name)
        .about(row.about)
        .override_usage(row.usage)
        .after_help(row.example)
        .arg(files_arg(alloc, row))?;
    for option in row.options {
        command = command.arg(option_arg(alloc, option))?;
    }
    Ok(command)
}

/// A command line with these commands too.
fn with_commands<'a>(
    alloc: Global,
    line: Command<'a>,
    rows: &[CommandRow],
) -> Result<Command<'a>, AllocError> {
    let mut line = line;
    for row in rows {
        line = line.subcommand(subcommand(alloc, row)?)?;
    }
    Ok(line)
}

fn with_questions<'a>(alloc: Global, line: Command<'a>) -> Result<Command<'a>, AllocError> {
    with_commands(alloc, line, QUESTIONS.as_slice())
}

fn with_tools<'a>(alloc: Global, line: Command<'a>) -> Result<Command<'a>, AllocError> {
    with_commands(alloc, line, TOOLS.as_slice())
}

/// The command line, without its commands.
fn bare_line<'a>(alloc: Global) -> Result<Command<'a>, AllocError> {
    let line = Command::new(alloc, "milkhour").bin_name("milkhour")?;
    Ok(
        line.version(VERSION)
            .about("A deductive prover for concurrent programs")
            .after_help(STATUSES)
            .subcommand_required(true)
            .arg_required_else_help(true),
    )
}

/// The command line for words of which this is the first. Where it names a command, what clap says of the words speaks of that command
/// alone, so the others, which take twelve times as long to make, are left out.
pub fn command_line<'a>(alloc: Global, first: &str) -> Result<Command<'a>, AllocError> {
    let line = bare_line(alloc)?;
    match command_named(first) {
        Some(row) => line.subcommand(subcommand(alloc, row)?),
        None => with_tools(alloc, with_questions(alloc, line)?),
    }
}
