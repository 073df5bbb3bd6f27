//! What clap finds in the words.

ghost use Rattle.std.specs.Prelude.{◌≡◌, ◌≢◌, ◌≤◌, [], IfOk, IsErrOf, codes, map, option_map};
ghost use Rattle.clap.specs.Words.{found_of, rows_of, fault_of, matches_of, first_of, all_of, one_of};
ghost use Rattle.step_words.specs.Definition.{step_app, words_of};
ghost use Rattle.step_words.specs.Request.{AreWorkers};

use crate::WordsFault;
use crate::definition::step_command;
use clap::ArgMatches;
use clap::error::ErrorKind;
use std::alloc::Global;

/// Of a refusal by clap only this counts: whether memory was refused.
pub fn parse<'a>(alloc: Global, words: &'a [String]) -> Result<ArgMatches<'a>, WordsFault>
    ensures taken { IfOk result (λ m. fault_of step_app (words_of words.entry.now) ≡ []) }
    ensures rows { IfOk result (λ m. rows_of (found_of m) ≡ matches_of step_app (words_of words.entry.now)) }
    ensures refused { IsErrOf result WordsFault.Refused → fault_of step_app (words_of words.entry.now) ≢ [] }
{
    let Ok(command) = step_command(alloc) else {
        return Err(WordsFault::Memory);
    };
    match command.try_get_matches_from(words) {
        Ok(matches) => Ok(matches),
        Err(error) => {
            if error.kind() == ErrorKind::OutOfMemory {
                Err(WordsFault::Memory)
            } else {
                Err(WordsFault::Refused)
            }
        }
    }
}

pub fn command_of<'a>(matches: &ArgMatches<'a>) -> Option<&'a str>
    ensures { option_map (λ s. s.now) result ≡ first_of (codes "command") (rows_of (found_of matches.now)) }
{
    matches.get_str("command")
}

pub fn names_of<'b, 'a>(matches: &'b ArgMatches<'a>) -> Option<&'b [&'a str]>
    ensures { option_map (λ s. map (λ v. v.now) s.now) result ≡ all_of (codes "names") (rows_of (found_of matches.entry.now)) }
{
    matches.get_strs("names")
}

/// The number, or the nearest from 1 to 64.
fn within_range(workers: u32) -> u32
    ensures same { (1 ≤ workers) → (workers ≤ 64) → result ≡ workers }
    ensures least { 1 ≤ result }
    ensures most { result ≤ 64 }
{
    if workers < 1 {
        return 1;
    }
    if 64 < workers {
        return 64;
    }
    workers
}

/// How many workers are asked for. clap has taken no number outside the range; the bounds are put once more in place of a
/// proof of that.
pub fn workers_of(matches: &ArgMatches<'_>) -> u32
    ensures asked { AreWorkers (one_of (codes "workers") (rows_of (found_of matches.now))) result }
    ensures least { 1 ≤ result }
    ensures most { result ≤ 64 }
{
    match matches.get_one::<u32>("workers") {
        Some(workers) => within_range(workers),
        None => 1,
    }
}
