//! The command line as it is defined for clap: the command's word, names behind it, and the option of workers.

ghost use Rattle.std.specs.Prelude.{◌≡◌, false, IfOk};
ghost use Rattle.clap.specs.Words.{app_of, rule_of};
ghost use Rattle.step_words.specs.Definition.{step_app, command_rule, names_rule, workers_rule};

use clap::{Arg, Command, value_parser};
use std::alloc::{AllocError, Global};

fn command_arg<'a>(alloc: Global) -> Arg<'a>
    ensures rule { rule_of result ≡ command_rule }
    ensures local { result.global ≡ false }
{
    Arg::new(alloc, "command").required(true)
}

fn names_arg<'a>(alloc: Global) -> Arg<'a>
    ensures rule { rule_of result ≡ names_rule }
    ensures local { result.global ≡ false }
{
    Arg::new(alloc, "names").num_args(0..)
}

fn workers_arg<'a>(alloc: Global) -> Arg<'a>
    ensures rule { rule_of result ≡ workers_rule }
    ensures local { result.global ≡ false }
{
    Arg::new(alloc, "workers")
        .long("workers")
        .value_parser(value_parser!(u32).range(1..=64))
        .default_value("1")
}

pub fn step_command<'a>(alloc: Global) -> Result<Command<'a>, AllocError>
    ensures { IfOk result (λ c. app_of c ≡ step_app) }
{
    Command::new(alloc, "step")
        .arg(command_arg(alloc))?
        .arg(names_arg(alloc))?
        .arg(workers_arg(alloc))
}
