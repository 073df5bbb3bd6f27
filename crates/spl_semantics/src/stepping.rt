//! The steps of what is left.
//!
//! Each residual steps at its front, and what stands round the front is put on again.

ghost use Rattle.std.specs.Prelude.{IfOk};
ghost use Rattle.st_program.specs.Plain.{plain_children};
ghost use Rattle.st_program.specs.Residuals.{Run, plain_residual, plain_residuals};
ghost use Rattle.spl_semantics.specs.Answers.{Answers};
ghost use Rattle.spl_semantics.specs.Data.{store_of, types, StoreFits};
ghost use Rattle.spl_semantics.specs.Limits.{wide_rest, wide_rests};
ghost use Rattle.spl_semantics.specs.Plain.{plain_acts, plain_moves, act_stores, move_stores, AllOfTypes};
ghost use Rattle.spl_semantics.specs.Steps as steps;

use crate::actions::first_acts;
use crate::acts::{Act, Move};
use crate::blocks::body;
use crate::children::{inside_all, place_all};
use crate::components::before_among;
use crate::faults::MoveFault;
use crate::simple::leave;
use crate::surgery::{all_done, back_all, join_all};
use st_program::{Datum, Program, Residual};
use std::alloc::Global;

/// The steps of what is left of a part.
#[cycle(steps)]
#[tactic(auto, using(st_program::proofs::ResidualRows::residuals))]
fn acts_of(
    alloc: Global,
    program: &Program,
    residual: &Residual,
    store: &[Datum],
) -> Result<Vec<Act>, MoveFault>
    ensures steps { StoreFits program.now.variables store.now
        → Answers (λ v. plain_acts v.items) result
        (wide_rest (plain_residual residual.now) (plain_children program.now.processes) (store_of store.now))
        (steps.steps (plain_residual residual.now) (plain_children program.now.processes) (store_of store.now)) }
    ensures stores { StoreFits program.now.variables store.now → IfOk result (λ v. AllOfTypes (types store.now) (act_stores v.items)) }
{
    match residual {
        Residual::Done => Ok(Vec::new(alloc)),
        Residual::Run(occ) => run_acts(alloc, program, *occ, store),
        Residual::Then { first, block, from } => {
            let inner = acts_of(alloc, program, first, store)?;
            match body(program, *block) {
                Some(items) => Ok(join_all(alloc, items, inner, *block, *from)?),
                None => Ok(Vec::new(alloc)),
            }
        }
        Residual::Again { body, loop_occ } => {
            let inner = acts_of(alloc, program, body, store)?;
            Ok(back_all(alloc, inner, *loop_occ)?)
        }
        Residual::Inside { coop, children } => {
            let inner = moves_of(alloc, program, children, store)?;
            let mut acts = inside_all(alloc, inner, *coop)?;
            if all_done(children) {
                acts.push(leave(alloc, *coop, store)?)?;
            }
            Ok(acts)
        }
    }
}

/// The steps of the statement with this occurrence.
fn run_acts(
    alloc: Global,
    program: &Program,
    occ: u32,
    store: &[Datum],
) -> Result<Vec<Act>, MoveFault>
    ensures steps { StoreFits program.now.variables store.now
        → Answers (λ v. plain_acts v.items) result
        (wide_rest (Run occ) (plain_children program.now.processes) (store_of store.now))
        (steps.steps (Run occ) (plain_children program.now.processes) (store_of store.now)) }
    ensures stores { StoreFits program.now.variables store.now → IfOk result (λ v. AllOfTypes (types store.now) (act_stores v.items)) }
{
    let Some(stmt) = program.statement(occ) else {
        return Ok(Vec::new(alloc));
    };
    match before_among(&program.processes, occ, 0) {
        Ok(before) => first_acts(
            alloc,
            stmt,
            program.statements.saturating_add(before),
            store,
        ),
        Err(_) => Ok(Vec::new(alloc)),
    }
}

/// The steps of one of these.
#[cycle(steps)]
pub fn moves_of(
    alloc: Global,
    program: &Program,
    residuals: &[Residual],
    store: &[Datum],
) -> Result<Vec<Move>, MoveFault>
    ensures steps { StoreFits program.now.variables store.now
        → Answers (λ v. plain_moves v.items) result
        (wide_rests (plain_residuals residuals.now) (plain_children program.now.processes) (store_of store.now))
        (steps.steps_of (plain_residuals residuals.now) (plain_children program.now.processes) (store_of store.now)) }
    ensures stores { StoreFits program.now.variables store.now → IfOk result (λ v. AllOfTypes (types store.now) (move_stores v.items)) }
{
    let mut moves = Vec::new(alloc);
    for (place, residual) in residuals.iter().enumerate() {
        let acts = acts_of(alloc, program, residual, store)?;
        place_all(alloc, residuals, place, acts, &mut moves)?;
    }
    Ok(moves)
}
