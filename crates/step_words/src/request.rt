//! The request that words make: the command, and names as many as it has.

ghost use Rattle.std.specs.Prelude.{◌≡◌, ◌≤◌, ◌∷◌, [], Some, None, map, option_map, codes, IfOk, IfSome, IsErrOf};
ghost use Rattle.clap.specs.Words.{all_of, first_of, found_of, rows_of};
ghost use Rattle.step_words.specs.Definition.{words_of};
ghost use Rattle.step_words.specs.Request.{IsStated, plain_request, request_of, request_given, request_for, workload_number, AreWorkers, workers_of};

use crate::WordsFault;
use crate::parsing::{command_of, names_of, parse, workers_of};
use clap::ArgMatches;
use std::alloc::Global;

/// What words ask for, with the names of its files.
#[derive(Clone, Copy)]
pub enum Request<'a> {
    /// Program, proof and certificates.
    Check(&'a str, &'a str, &'a str),
    /// Program and proof.
    Verify(&'a str, &'a str),
    /// Program and proof.
    Prove(&'a str, &'a str),
    /// The number of a workload, 1 to 4.
    Workload(u32),
    /// Program, proof and schedule.
    Trace(&'a str, &'a str, &'a str),
    /// Program.
    Invariants(&'a str),
}

/// A request, and how many workers it may use.
#[derive(Clone, Copy)]
pub struct CommandLine<'a> {
    pub request: Request<'a>,
    pub workers: u32,
}

fn workload_number(text: &str) -> Option<u32>
    ensures { result ≡ workload_number text.now }
{
    if text == "1" {
        return Some(1);
    }
    if text == "2" {
        return Some(2);
    }
    if text == "3" {
        return Some(3);
    }
    if text == "4" {
        return Some(4);
    }
    None
}

fn with_one_name<'a>(command: &str, name: &'a str) -> Option<Request<'a>>
    ensures { option_map plain_request result ≡ request_for command.now (name.now ∷ []) }
{
    if command == "workload" {
        return match workload_number(name) {
            Some(number) => Some(Request::Workload(number)),
            None => None,
        };
    }
    if command == "invariants" {
        return Some(Request::Invariants(name));
    }
    None
}

fn with_two_names<'a>(command: &str, program: &'a str, proof: &'a str) -> Option<Request<'a>>
    ensures { option_map plain_request result ≡ request_for command.now (program.now ∷ proof.now ∷ []) }
{
    if command == "verify" {
        return Some(Request::Verify(program, proof));
    }
    if command == "prove" {
        return Some(Request::Prove(program, proof));
    }
    None
}

fn with_three_names<'a>(
    command: &str,
    program: &'a str,
    proof: &'a str,
    third: &'a str,
) -> Option<Request<'a>>
    ensures { option_map plain_request result ≡ request_for command.now (program.now ∷ proof.now ∷ third.now ∷ []) }
{
    if command == "check" {
        return Some(Request::Check(program, proof, third));
    }
    if command == "trace" {
        return Some(Request::Trace(program, proof, third));
    }
    None
}

fn request_for<'a>(command: &str, names: &[&'a str]) -> Option<Request<'a>>
    ensures { option_map plain_request result ≡ request_for command.now (map (λ n. n.now) names.now) }
{
    match names {
        [program, proof, third] => with_three_names(command, program, proof, third),
        [program, proof] => with_two_names(command, program, proof),
        [name] => with_one_name(command, name),
        _ => None,
    }
}

fn request_in<'a>(matches: &ArgMatches<'a>) -> Option<Request<'a>>
    ensures { option_map plain_request result ≡ request_given (first_of (codes "command") (rows_of (found_of matches.now))) (all_of (codes "names") (rows_of (found_of matches.now))) }
{
    match command_of(matches) {
        None => None,
        Some(command) => match names_of(matches) {
            None => None,
            Some(names) => request_for(command, names),
        },
    }
}

/// Reads the words, the program's name first. They are refused exactly where clap refuses them for another cause than want
/// of memory, or where no request has this command with so many names, or where the name behind `workload` isn't `1`, `2`,
/// `3` or `4`. So `--help` is refused, and a word too few or too many, and a number of workers outside 1 to 64.
pub fn read_request<'a>(alloc: Global, words: &'a [String]) -> Result<CommandLine<'a>, WordsFault>
    ensures ok { IfOk result (λ c. request_of (words_of words.entry.now) ≡ Some (plain_request c.request)) }
    ensures refused { IsErrOf result WordsFault.Refused → request_of (words_of words.entry.now) ≡ None }
    ensures workers { IfOk result (λ c. AreWorkers (workers_of (words_of words.entry.now)) c.workers) }
    ensures least { IfOk result (λ c. 1 ≤ c.workers) }
    ensures most { IfOk result (λ c. c.workers ≤ 64) }
{
    match parse(alloc, words) {
        Err(fault) => Err(fault),
        Ok(matches) => match request_in(&matches) {
            Some(request) => Ok(CommandLine {
                request,
                workers: workers_of(&matches),
            }),
            None => Err(WordsFault::Refused),
        },
    }
}
