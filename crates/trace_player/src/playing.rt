//! A schedule, played.
//!
//! A move takes the first step with its name, in the order of the definition of steps. In states of runs there is one.

ghost use Rattle.std.specs.Prelude.{◌≡◌, suc, ◌≤◌, ◌<◌, ◌^◌, ◌++◌, ◌∷◌, [], All, IfOk, OnOk, length};
ghost use Rattle.st_form.specs.Plain.{plain};
ghost use Rattle.st_program.specs.Plain.{plain_children};
ghost use Rattle.spl_semantics.specs.Data.{store_of, StoreFits};
ghost use Rattle.spl_semantics.specs.Limits.{wide_rests};
ghost use Rattle.spl_semantics.specs.Plain.{plain_state};
ghost use Rattle.spl_semantics.specs.Steps.{steps_of};
ghost use Rattle.schedule_reader.specs.Values.{IsWritten};
ghost use Rattle.trace_player.specs.Playing.{Plays, PlayAnswers, Surveyed, Noted};

use crate::beginning::begins;
use crate::enabling::{behind, names_of};
use crate::faults::PlayFault;
use crate::runs::Played;
use schedule_reader::Schedule;
use spl_semantics::{Move, MoveFault, moves, start};
use st_form::TransName;
use st_memory::Memory;
use st_program::{Program, State};
use std::alloc::Global;

/// All steps of the state at a position.
fn survey(
    alloc: Global,
    program: &Program,
    state: &State,
    position: u32,
) -> Result<Vec<Move>, PlayFault>
    requires store { StoreFits program.now.variables state.now.store.items }
    ensures steps { Surveyed (plain_children program.now.processes) (plain_state state.now) position result }
    ensures fits { IfOk result (λ v. All (λ m. StoreFits program.now.variables m.state.store.items) v.items) }
{
    match moves(alloc, program, state) {
        Ok(steps) => Ok(steps),
        Err(MoveFault::ValueLimit) => Err(PlayFault::ValueLimit(position)),
        Err(MoveFault::Memory) => Err(PlayFault::Memory),
    }
}

/// Notes a state and the names that are enabled in it.
fn note(
    alloc: Global,
    states: &mut Vec<State>,
    enabled: &mut Vec<Vec<TransName>>,
    state: State,
    steps: &[Move],
) -> Result<(), Memory>
    ensures { OnOk result (Noted states.old.items enabled.old.items state steps.now states.new.items enabled.new.items) }
{
    enabled.push(names_of(alloc, steps)?)?;
    states.push(state)?;
    Ok(())
}

/// The run from the state that these moves make.
fn play_from(
    alloc: Global,
    program: &Program,
    state: State,
    names: &[TransName],
) -> Result<Played, PlayFault>
    requires store { StoreFits program.now.variables state.store.items }
    requires few { length names.now < 2 ^ 32 }
    ensures { Plays (plain_children program.now.processes) (plain_state state) names.now result }
{
    let mut current = state;
    let mut states = Vec::new(alloc);
    let mut enabled = Vec::new(alloc);
    for position in 0..names.len() {
        let steps = survey(alloc, program, &current, position as u32)?;
        let Some(next) = behind(alloc, &current, &steps, names[position])? else {
            return Err(PlayFault::Illegal(position as u32));
        };
        note(alloc, &mut states, &mut enabled, current, &steps)?;
        current = next;
    }
    let steps = survey(alloc, program, &current, names.len() as u32)?;
    note(alloc, &mut states, &mut enabled, current, &steps)?;
    Ok(Played {
        states,
        names: Vec::from_slice(alloc, names)?,
        enabled,
    })
}

/// The run that the schedule gives.
///
/// # Errors
///
/// `NoStart` where the initial condition fails in the schedule's store. Otherwise what comes first: at a position, that a
/// number is too large there, before that the move from there isn't enabled.
pub fn play(alloc: Global, program: &Program, schedule: &Schedule) -> Result<Played, PlayFault>
    requires store { StoreFits program.now.variables schedule.now.store.items }
    requires written { All IsWritten schedule.now.store.items }
    requires few { length schedule.now.moves.items ≤ 1000 }
    ensures answers { PlayAnswers (plain_children program.now.processes) (plain program.now.initial) (store_of schedule.now.store.items) schedule.now.moves.items result }
    ensures long { IfOk result (λ played. (length played.states.items ≡ suc (length schedule.now.moves.items)) × (length played.enabled.items ≡ suc (length schedule.now.moves.items))) }
{
    if !begins(program, &schedule.store)? {
        return Err(PlayFault::NoStart);
    }
    let store = Vec::from_slice(alloc, &schedule.store)?;
    let state = start(alloc, program, store)?;
    play_from(alloc, program, state, &schedule.moves)
}
