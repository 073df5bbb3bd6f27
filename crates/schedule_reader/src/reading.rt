//! Whole schedules.
//!
//! A schedule is read once, from left to right: each setting and each move is told by its first token. The first fault in the
//! order of the text decides.

ghost use Rattle.std.specs.Prelude.{◌≡◌, ◌≤◌, ◌<◌, ◌^◌, IfOk, map, length};
ghost use Rattle.std.specs.Option.{option_map};
ghost use Rattle.st_tokens.specs.Stream.{stream};
ghost use Rattle.st_program.specs.Plain.{plain_children};
ghost use Rattle.st_reading.specs.Reading.{Reads, size};
ghost use Rattle.st_reading.specs.Breaches.{Gives};
ghost use Rattle.schedule_reader.specs.Faults.{see};
ghost use Rattle.schedule_reader.specs.Schedules.{plain_schedule, all_set, settings_of, moves_of, store_of, schedule_of, schedule_spelled};

use crate::fault::ScheduleFault;
use crate::moving::{next_move, opening_in};
use crate::schedule::Schedule;
use crate::setting::setting;
use st_form::TransName;
use st_memory::Memory;
use st_program::{Datum, NameTable, Program};
use st_reading::{Mark, advance, ahead, at_end, expect, is_name, name_ahead};
use st_tokens::Tokens;
use std::alloc::Global;

/// All settings that stand there.
#[tactic(auto, unfolding(crate::specs::Schedules::settings_of))]
fn settings(
    names: &NameTable,
    store: &mut [Option<Datum>],
    tokens: &mut Tokens<'_>,
) -> Result<(), ScheduleFault>
    ensures reads { Reads see (λ _. store.new) result (stream tokens.new) (settings_of names.now store.old (stream tokens.old)) }
    ensures shrinks { IfOk result (λ _. size (stream tokens.new) ≤ size (stream tokens.old)) }
{
    'items: while is_name(ahead(tokens)) {
        let name = name_ahead(tokens);
        advance(tokens);
        setting(names, &name, store, tokens)?;
    }
    Ok(())
}

/// The values of all variables, where each has one.
fn all_set(alloc: Global, store: &[Option<Datum>]) -> Result<Option<Vec<Datum>>, Memory>
    ensures { IfOk result (λ o. option_map (λ v. v.items) o ≡ all_set store.now) }
{
    let mut values = Vec::new(alloc);
    for value in store {
        match value {
            Some(value) => values.push(*value)?,
            None => return Ok(None),
        }
    }
    Ok(Some(values))
}

/// All settings and the `::` behind them: a value for each variable.
#[tactic(auto, unfolding(crate::specs::Schedules::store_of))]
fn store(
    alloc: Global,
    names: &NameTable,
    variables: usize,
    tokens: &mut Tokens<'_>,
) -> Result<Vec<Datum>, ScheduleFault>
    requires { variables ≡ length names.now.variables }
    ensures reads { Reads see (λ v. v.items) result (stream tokens.new) (store_of names.now (stream tokens.old)) }
    ensures shrinks { IfOk result (λ _. size (stream tokens.new) ≤ size (stream tokens.old)) }
{
    let mut store: Vec<Option<Datum>> = vec![in alloc; None; variables]?;
    settings(names, &mut store, tokens)?;
    let place = expect(tokens, Mark::Colons)?;
    match all_set(alloc, &store)? {
        Some(values) => Ok(values),
        None => Err(ScheduleFault::Unset(place)),
    }
}

/// All moves that stand there.
#[tactic(auto, unfolding(crate::specs::Schedules::moves_of))]
fn moves(
    alloc: Global,
    names: &NameTable,
    program: &Program,
    tokens: &mut Tokens<'_>,
) -> Result<Vec<TransName>, ScheduleFault>
    ensures reads { Reads see (λ v. v.items) result (stream tokens.new) (moves_of names.now (plain_children program.now.processes) (stream tokens.old)) }
    ensures shrinks { IfOk result (λ _. size (stream tokens.new) ≤ size (stream tokens.old)) }
{
    let mut moves = Vec::new(alloc);
    'items: while let Some(opening) = opening_in(ahead(tokens)) {
        let first = name_ahead(tokens);
        advance(tokens);
        next_move(names, program, opening, &first, &mut moves, tokens)?;
    }
    Ok(moves)
}

/// A schedule and the end of the text.
#[tactic(auto, unfolding(crate::specs::Schedules::schedule_of))]
fn schedule(
    alloc: Global,
    names: &NameTable,
    program: &Program,
    tokens: &mut Tokens<'_>,
) -> Result<Schedule, ScheduleFault>
    requires { map (λ v. v.1) names.now.variables ≡ map (λ v. v.truth) program.now.variables }
    ensures { Reads see plain_schedule result (stream tokens.new) (schedule_of names.now (plain_children program.now.processes) (stream tokens.old)) }
{
    let store = store(alloc, names, program.variables.len(), tokens)?;
    let moves = moves(alloc, names, program, tokens)?;
    at_end(tokens)?;
    Ok(Schedule { store, moves })
}

/// Reads a schedule for a program, whose variables the names are, with their types.
///
/// # Errors
///
/// The first fault in the order of the text; at one place in the order of [`ScheduleFault`].
pub fn read_schedule(
    alloc: Global,
    text: &[u8],
    program: &Program,
    names: &NameTable,
) -> Result<Schedule, ScheduleFault>
    requires short { length text.now < 2 ^ 32 }
    requires names { map (λ v. v.1) names.now.variables ≡ map (λ v. v.truth) program.now.variables }
    ensures { Gives see plain_schedule result (schedule_spelled names.now (plain_children program.now.processes) text.now) }
{
    let mut tokens = Tokens::new(text);
    schedule(alloc, names, program, &mut tokens)
}
