//! Steps of one of several residuals, as steps of them all; and steps of a cooperation's children, as steps of the
//! cooperation.

ghost use Rattle.std.specs.Prelude.{◌≡◌, ◌<◌, ◌+◌, ◌++◌, IfOk, OnOk, drop, length, map, take};
ghost use Rattle.st_program.specs.Residuals.{Inside, rests, plain_residual, plain_residuals};
ghost use Rattle.spl_semantics.specs.Plain.{plain_acts, plain_moves, act_stores, move_stores, in_front};
ghost use Rattle.spl_semantics.specs.Going as going;

use crate::acts::{Act, Move};
use st_memory::Memory;
use st_program::residuals::copy_all;
use st_program::{Residual, State};
use std::alloc::Global;

/// These residuals with another one at a place.
fn placed(
    alloc: Global,
    residuals: &[Residual],
    place: usize,
    left: Residual,
) -> Result<Vec<Residual>, Memory>
    requires { place < length residuals.now }
    ensures { IfOk result (λ v. plain_residuals v.items
        ≡ in_front (take place residuals.now) (rests (plain_residual left) (plain_residuals (drop (place + 1) residuals.now)))) }
{
    let mut all = copy_all(alloc, residuals)?;
    all[place] = left;
    Ok(all)
}

/// The steps of the residual at a place, as steps of them all.
pub fn place_all(
    alloc: Global,
    residuals: &[Residual],
    place: usize,
    acts: Vec<Act>,
    moves: &mut Vec<Move>,
) -> Result<(), Memory>
    requires { place < length residuals.now }
    ensures steps { OnOk result (plain_moves moves.new.items ≡ plain_moves moves.old.items
        ++ map (going.around (λ r. in_front (take place residuals.now) (rests r (plain_residuals (drop (place + 1) residuals.now))))) (plain_acts acts.items)) }
    ensures stores { OnOk result (move_stores moves.new.items ≡ move_stores moves.old.items ++ act_stores acts.items) }
{
    for act in acts {
        let Act {
            name,
            mode,
            left,
            store,
        } = act;
        let residuals = placed(alloc, residuals, place, left)?;
        moves.push(Move {
            name,
            mode,
            state: State { residuals, store },
        })?;
    }
    Ok(())
}

/// A cooperation with what is left of its children.
#[tactic(auto, using(st_program::proofs::ResidualRows::residuals))]
fn inside(coop: u32, children: Vec<Residual>) -> Residual
    ensures { plain_residual result ≡ Inside coop (plain_residuals children.items) }
{
    Residual::Inside { coop, children }
}

/// The steps of the children of a cooperation, as steps of the cooperation.
pub fn inside_all(alloc: Global, moves: Vec<Move>, coop: u32) -> Result<Vec<Act>, Memory>
    ensures steps { IfOk result (λ v. plain_acts v.items ≡ map (going.around (Inside coop)) (plain_moves moves.items)) }
    ensures stores { IfOk result (λ v. act_stores v.items ≡ move_stores moves.items) }
{
    let mut acts = Vec::new(alloc);
    for step in moves {
        let Move { name, mode, state } = step;
        let State { residuals, store } = state;
        acts.push(Act {
            name,
            mode,
            left: inside(coop, residuals),
            store,
        })?;
    }
    Ok(acts)
}
