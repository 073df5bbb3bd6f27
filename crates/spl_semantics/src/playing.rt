//! The steps of a state, in the order of their names.

ghost use Rattle.std.specs.Prelude.{◌≡◌, All, IfOk};
ghost use Rattle.st_program.specs.Plain.{plain_children};
ghost use Rattle.st_program.specs.Residuals.{plain_residuals};
ghost use Rattle.spl_semantics.specs.Data.{store_of, StoreFits};
ghost use Rattle.spl_semantics.specs.InOrder.{AnswersInOrder, name_place, part_place};
ghost use Rattle.spl_semantics.specs.Limits.{wide_rests};
ghost use Rattle.spl_semantics.specs.Steps.{steps_of};

use crate::acts::Move;
use crate::faults::MoveFault;
use crate::stepping::moves_of;
use st_form::{Part, TransName};
use st_program::{Program, State};
use std::alloc::Global;

/// The place of a part in the order of names.
fn part_place(part: Part) -> u64
    ensures { result ≡ part_place part }
{
    match part {
        Part::Whole => 1,
        Part::Entry => 2,
        Part::Exit => 3,
    }
}

/// The place of a name in the order of names: by occurrence, then by part.
fn name_place(name: TransName) -> u64
    ensures { result ≡ name_place name }
{
    match name {
        TransName::Idle => 0,
        TransName::Step { occ, part } => (occ as u64) * 4 + part_place(part),
    }
}

/// All steps of the state but idling, by occurrence, then by part, an entry before its exit. Steps of one name stand in the
/// order in which the residuals that act stand in the state.
///
/// The store has a datum of its type for each variable. There is no step where a residual would run a statement, or go on in
/// a body, that the program doesn't have.
///
/// # Errors
///
/// `ValueLimit` exactly where a test or a right side at the front has a product or a partial sum of size 2^126 or more; of a
/// group, those count that are met on the walk up to its first false `await`.
pub fn moves(alloc: Global, program: &Program, state: &State) -> Result<Vec<Move>, MoveFault>
    requires store { StoreFits program.now.variables state.now.store.items }
    ensures moves { AnswersInOrder result
        (wide_rests (plain_residuals state.now.residuals.items) (plain_children program.now.processes) (store_of state.now.store.items))
        (steps_of (plain_residuals state.now.residuals.items) (plain_children program.now.processes) (store_of state.now.store.items)) }
    ensures fits { IfOk result (λ v. All (λ m. StoreFits program.now.variables m.state.store.items) v.items) }
{
    let mut moves = moves_of(alloc, program, &state.residuals, &state.store)?;
    moves.sort_by_key(|step| name_place(step.name))?;
    Ok(moves)
}
