//! Walks through groups.
//!
//! From a store there is one walk through a group: at each conditional the test's value chooses the branch, and the walk
//! ends at the first `await` whose test is false. Where it goes through, its path has a number: how many paths come before
//! it in the order of choices, the true branch first. So a walk counts the paths of each statement that it goes through, and
//! reads their numbers as digits of a mixed base; each statement is walked or counted once.

ghost use Rattle.std.specs.Prelude.{◌≡◌, ◌≤◌, ◌<◌, ◌+◌, ◌^◌, ◌∷◌, [], ℕ, IfOk, Ok, length, min, ◌-◌};
ghost use Rattle.st_program.specs.Groups.{paths, paths_along};
ghost use Rattle.st_program.specs.Plain.{plain_inner, plain_pieces};
ghost use Rattle.spl_semantics.specs.Data.{store_of, types, PieceMeets, PiecesMeet};
ghost use Rattle.spl_semantics.specs.Walks as walks;
ghost use Rattle.spl_semantics.specs.Answers.{Answers};
ghost use Rattle.spl_semantics.specs.Limits.{wide_paths};
ghost use Rattle.spl_semantics.specs.Plain.{plain_acts, plain_walk, act_stores, AllOfTypes, WalkOfTypes};
ghost use Rattle.spl_semantics.specs.Steps.{path_acts};

use crate::acts::Act;
use crate::effects::assigned;
use crate::evaluation::is_true;
use crate::faults::MoveFault;
use crate::simple::one;
use st_program::{Datum, Inner, Residual};
use std::alloc::Global;

/// How many paths lead through a statement. Counts that pass the largest number of 32 bits stand still there.
#[cycle(ways)]
fn ways(piece: &Inner) -> u32
    ensures { length (paths (plain_inner piece.now)) ≤ 64 → result ≡ length (paths (plain_inner piece.now)) }
{
    match piece {
        Inner::Skip | Inner::Assign(_) | Inner::Await(_) => 1,
        Inner::If { test: _, yes, no } => ways_along(yes).saturating_add(ways_along(no)),
    }
}

/// How many paths lead through these statements, one after another.
#[cycle(ways)]
fn ways_along(pieces: &[Inner]) -> u32
    ensures { length (paths_along (plain_pieces pieces.now)) ≤ 64 → result ≡ length (paths_along (plain_pieces pieces.now)) }
{
    let mut count: u32 = 1;
    for piece in pieces {
        count = count.saturating_mul(ways(piece));
    }
    count
}

/// The walk through a statement: the number of its path and the store that it leaves, or `None` where it ends on the way.
#[cycle(walk)]
fn walk(
    alloc: Global,
    piece: &Inner,
    store: &[Datum],
) -> Result<Option<(u32, Vec<Datum>)>, MoveFault>
    ensures steps { PieceMeets (types store.now) (plain_inner piece.now) → length (paths (plain_inner piece.now)) ≤ 64
        → Answers plain_walk result
        (walks.wide_walk (plain_inner piece.now) (store_of store.now))
        (walks.walk (plain_inner piece.now) (store_of store.now)) }
    ensures stores { PieceMeets (types store.now) (plain_inner piece.now) → length (paths (plain_inner piece.now)) ≤ 64 → IfOk result (WalkOfTypes (types store.now)) }
{
    match piece {
        Inner::Skip => Ok(Some((0, Vec::from_slice(alloc, store)?))),
        Inner::Assign(targets) => Ok(Some((0, assigned(alloc, targets, store)?))),
        Inner::Await(test) => {
            if is_true(test, store)? {
                Ok(Some((0, Vec::from_slice(alloc, store)?)))
            } else {
                Ok(None)
            }
        }
        Inner::If { test, yes, no } => {
            if is_true(test, store)? {
                return walk_along(alloc, yes, store);
            }
            match walk_along(alloc, no, store)? {
                Some((number, after)) => Ok(Some((ways_along(yes).saturating_add(number), after))),
                None => Ok(None),
            }
        }
    }
}

/// The walk through these statements, one after another.
#[cycle(walk)]
fn walk_along(
    alloc: Global,
    pieces: &[Inner],
    store: &[Datum],
) -> Result<Option<(u32, Vec<Datum>)>, MoveFault>
    ensures steps { PiecesMeet (types store.now) (plain_pieces pieces.now) → length (paths_along (plain_pieces pieces.now)) ≤ 64
        → Answers plain_walk result
        (walks.wide_walk_along (plain_pieces pieces.now) (store_of store.now))
        (walks.walk_along (plain_pieces pieces.now) (store_of store.now)) }
    ensures stores { PiecesMeet (types store.now) (plain_pieces pieces.now) → length (paths_along (plain_pieces pieces.now)) ≤ 64 → IfOk result (WalkOfTypes (types store.now)) }
{
    let mut number: u32 = 0;
    let mut now = Vec::from_slice(alloc, store)?;
    for piece in pieces {
        match walk(alloc, piece, &now)? {
            Some((digit, after)) => {
                number = number.saturating_mul(ways(piece)).saturating_add(digit);
                now = after;
            }
            None => return Ok(None),
        }
    }
    Ok(Some((number, now)))
}

/// The step of a group, where it can be walked from the store.
pub fn group_acts(
    alloc: Global,
    pieces: &[Inner],
    occ: u32,
    store: &[Datum],
) -> Result<Vec<Act>, MoveFault>
    ensures steps { PiecesMeet (types store.now) (plain_pieces pieces.now) → length (paths_along (plain_pieces pieces.now)) ≤ 64
        → Answers (λ v. plain_acts v.items) result
        (wide_paths (paths_along (plain_pieces pieces.now)) (store_of store.now))
        (path_acts occ 1 (paths_along (plain_pieces pieces.now)) (store_of store.now)) }
    ensures stores { PiecesMeet (types store.now) (plain_pieces pieces.now) → length (paths_along (plain_pieces pieces.now)) ≤ 64
        → IfOk result (λ v. AllOfTypes (types store.now) (act_stores v.items)) }
{
    match walk_along(alloc, pieces, store)? {
        Some((number, after)) => Ok(one(
            alloc,
            occ,
            number.saturating_add(1),
            Residual::Done,
            after,
        )?),
        None => Ok(Vec::new(alloc)),
    }
}
