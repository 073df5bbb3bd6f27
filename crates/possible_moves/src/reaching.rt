//! Where a schedule leads, and what may be done there. A state is given by the moves that lead to it, so it is one that a run
//! reaches, and in such a state a transition leads one way (`trace_laws`).

ghost use Rattle.std.specs.Prelude.{◌≡◌, ◌≤◌, List, All, IfOk, IfSome, length, map};
ghost use Rattle.st_form.specs.Formula.{Formula};
ghost use Rattle.st_form.specs.Plain.{plain};
ghost use Rattle.st_form.specs.declared.conditions.TransName.{TransName};
ghost use Rattle.st_program.specs.Plain.{plain_children};
ghost use Rattle.spl_semantics.specs.Data.{store_of, StoreFits};
ghost use Rattle.spl_semantics.specs.Plain.{plain_state};
ghost use Rattle.spl_semantics.specs.Stores.{Store};
ghost use Rattle.schedule_reader.specs.Values.{IsWritten};
ghost use Rattle.possible_moves.specs.Moves.{AreMoves, IsAt, IsReachedBy, IsRunOf, way_of};

use schedule_reader::Schedule;
use spl_semantics::{Move, MoveFault, moves, store_fits};
use st_memory::Memory;
use st_program::{Program, State};
use std::alloc::Global;
use trace_player::{PlayFault, Played, play};

/// A state with the moves that may be taken from it, by their names in text order, each with the state behind it.
#[derive(Drop)]
pub struct Reached {
    pub state: State,
    pub moves: Vec<Move>,
}

/// The moves from a state; `None` where a number would be too large.
fn moves_from(alloc: Global, program: &Program, state: &State) -> Result<Option<Vec<Move>>, Memory>
    requires store { StoreFits program.now.variables state.now.store.items }
    ensures { IfOk result (λ o. IfSome o (λ v. AreMoves (plain_children program.now.processes) (plain_state state.now) (map way_of v.items))) }
{
    let _ = &program.processes;
    match moves(alloc, program, state) {
        Ok(moves) => Ok(Some(moves)),
        Err(MoveFault::ValueLimit) => Ok(None),
        Err(MoveFault::Memory) => Err(Memory),
    }
}

/// The state and what may be done there; `None` where its store isn't one of the program.
fn surveyed(alloc: Global, program: &Program, state: State) -> Result<Option<Reached>, Memory>
    ensures { IfOk result (λ o. IfSome o (IsAt (plain_children program.now.processes) state)) }
{
    if !store_fits(&program.variables, &state.store) {
        return Ok(None);
    }
    match moves_from(alloc, program, &state)? {
        Some(moves) => Ok(Some(Reached { state, moves })),
        None => Ok(None),
    }
}

/// The last state of a run that was played, and what may be done there.
fn last_reached(alloc: Global, program: &Program, played: Played) -> Result<Option<Reached>, Memory>
    ensures { (initial : Formula) (store : Store) (names : List TransName) → IsRunOf (plain_children program.now.processes) initial store names played
        → IfOk result (λ o. IfSome o (IsReachedBy (plain_children program.now.processes) initial store names)) }
{
    let mut states = played.states;
    let last = states.pop();
    match last {
        Some(state) => surveyed(alloc, program, state),
        None => Ok(None),
    }
}

/// The run that a schedule gives; `None` where it isn't one of the program.
fn run(alloc: Global, program: &Program, schedule: &Schedule) -> Result<Option<Played>, Memory>
    requires store { StoreFits program.now.variables schedule.now.store.items }
    requires written { All IsWritten schedule.now.store.items }
    requires few { length schedule.now.moves.items ≤ 1000 }
    ensures { IfOk result (λ o. IfSome o (IsRunOf (plain_children program.now.processes) (plain program.now.initial) (store_of schedule.now.store.items) schedule.now.moves.items)) }
{
    match play(alloc, program, schedule) {
        Ok(played) => Ok(Some(played)),
        Err(PlayFault::Memory) => Err(Memory),
        Err(PlayFault::NoStart) => Ok(None),
        Err(PlayFault::ValueLimit(_)) => Ok(None),
        Err(PlayFault::Illegal(_)) => Ok(None),
    }
}

/// The state to which a schedule leads, and the moves that may be taken from it; `None` where the schedule gives no run of the
/// program.
pub fn reach(
    alloc: Global,
    program: &Program,
    schedule: &Schedule,
) -> Result<Option<Reached>, Memory>
    requires store { StoreFits program.now.variables schedule.now.store.items }
    requires written { All IsWritten schedule.now.store.items }
    requires few { length schedule.now.moves.items ≤ 1000 }
    ensures { IfOk result (λ o. IfSome o (IsReachedBy (plain_children program.now.processes) (plain program.now.initial) (store_of schedule.now.store.items) schedule.now.moves.items)) }
{
    match run(alloc, program, schedule)? {
        Some(played) => last_reached(alloc, program, played),
        None => Ok(None),
    }
}
