//! The stage of one variable.

ghost use Rattle.std.specs.Prelude.{◌≡◌, ◌<◌, ◌≤◌, ◌+◌, ◌++◌, true, false, [], None, Some, map, length, take, drop, MatchOption};
ghost use Rattle.st_linear.specs.Linear.{is_zero};
ghost use Rattle.elimination_laws.specs.Mixing.{part_of};
ghost use Rattle.elimination_laws.specs.Stages.{freed, paired, solves, solver, others, kept_by, is_free, bounds_below, bounds_above, pairs, made_with, made, sifted};
ghost use Rattle.row_elimination.specs.Places.{sift_from};
ghost use Rattle.lean_elimination.specs.Arenas.{tracks, row_at, listed, AllUnder};
ghost use Rattle.lean_elimination.specs.Placings.{Puts, GivesList, GivesFree, IsSolver, AreFree};

use crate::arena::Arena;
use crate::making::{freed, paired, part_at};
use crate::placing::place;
use crate::stop::Stop;
use std::alloc::Global;

/// Each line, freed from the variable by the equation.
fn solve(
    alloc: Global,
    var: u32,
    arena: &mut Arena,
    equation: usize,
    list: &[usize],
) -> Result<Vec<usize>, Stop>
    requires equation { equation < length arena.old.rows.items }
    requires list { AllUnder (length arena.old.rows.items) list.now }
    requires solves { is_zero (part_of var (row_at (tracks arena.old.rows.items) equation)) ≡ false }
    ensures { GivesList result arena.old.rows.items arena.new.rows.items
        (sift_from [] (map (freed var (row_at (tracks arena.old.rows.items) equation)) (listed (tracks arena.old.rows.items) list.now))) }
{
    let mut next = Vec::with_capacity(alloc, list.len())?;
    for k in list {
        let made = freed(alloc, var, arena, equation, *k)?;
        place(arena, &mut next, made)?;
    }
    Ok(next)
}

/// A lower bound with each upper bound of the list.
fn pair_with(
    alloc: Global,
    var: u32,
    arena: &mut Arena,
    next: &mut Vec<usize>,
    lower: usize,
    list: &[usize],
) -> Result<(), Stop>
    requires lower { lower < length arena.old.rows.items }
    requires list { AllUnder (length arena.old.rows.items) list.now }
    requires next { AllUnder (length arena.old.rows.items) next.old.items }
    requires bounds { is_zero (part_of var (row_at (tracks arena.old.rows.items) lower)) ≡ false }
    ensures { Puts result arena.old.rows.items arena.new.rows.items next.new.items
        (sift_from (listed (tracks arena.old.rows.items) next.old.items)
        (map (paired var (row_at (tracks arena.old.rows.items) lower)) (kept_by (bounds_above var) (listed (tracks arena.old.rows.items) list.now)))) }
{
    for upper in list {
        if part_at(var, arena, *upper) < 0 {
            let made = paired(alloc, var, arena, lower, *upper)?;
            place(arena, next, made)?;
        }
    }
    Ok(())
}

/// Each lower bound with each upper bound.
fn pair_all(
    alloc: Global,
    var: u32,
    arena: &mut Arena,
    next: &mut Vec<usize>,
    list: &[usize],
) -> Result<(), Stop>
    requires list { AllUnder (length arena.old.rows.items) list.now }
    requires next { AllUnder (length arena.old.rows.items) next.old.items }
    ensures { Puts result arena.old.rows.items arena.new.rows.items next.new.items
        (sift_from (listed (tracks arena.old.rows.items) next.old.items)
        (pairs var (kept_by (bounds_below var) (listed (tracks arena.old.rows.items) list.now))
        (kept_by (bounds_above var) (listed (tracks arena.old.rows.items) list.now)))) }
{
    for lower in list {
        if part_at(var, arena, *lower) > 0 {
            pair_with(alloc, var, arena, next, *lower, list)?;
        }
    }
    Ok(())
}

/// The lines without the variable.
fn free(alloc: Global, var: u32, arena: &Arena, list: &[usize]) -> Result<Vec<usize>, Stop>
    requires { AllUnder (length arena.now.rows.items) list.now }
    ensures { GivesFree result arena.now.rows.items
        (sift_from [] (map Some (kept_by (is_free var) (listed (tracks arena.now.rows.items) list.now)))) }
{
    let mut next = Vec::with_capacity(alloc, list.len())?;
    for k in list {
        if part_at(var, arena, *k) == 0 {
            place(arena, &mut next, *k)?;
        }
    }
    Ok(next)
}

/// The stage of a variable that no equation has.
fn bound(alloc: Global, var: u32, arena: &mut Arena, list: &[usize]) -> Result<Vec<usize>, Stop>
    requires { AllUnder (length arena.old.rows.items) list.now }
    ensures { GivesList result arena.old.rows.items arena.new.rows.items
        (sift_from [] (made_with var None (listed (tracks arena.old.rows.items) list.now))) }
{
    let mut next = free(alloc, var, arena, list)?;
    pair_all(alloc, var, arena, &mut next, list)?;
    Ok(next)
}

/// The place in the list of the first equation with the variable.
fn solver_at(var: u32, arena: &Arena, list: &[usize]) -> Option<usize>
    requires { AllUnder (length arena.now.rows.items) list.now }
    ensures { MatchOption result (solver var (listed (tracks arena.now.rows.items) list.now) ≡ None)
        (λ i. IsSolver var (tracks arena.now.rows.items) list.now i) }
{
    for i in 0..list.len() {
        if solves(var, arena, list[i]) {
            return Some(i);
        }
    }
    None
}

/// Whether the row at a place is an equation with the variable.
fn solves(var: u32, arena: &Arena, k: usize) -> bool
    requires { k < length arena.now.rows.items }
    ensures { result ≡ solves var (row_at (tracks arena.now.rows.items) k) }
{
    if !arena.rows[k].equal {
        return false;
    }
    if part_at(var, arena, k) == 0 {
        return false;
    }
    true
}

/// Whether no line has the variable.
pub(crate) fn are_free(var: u32, arena: &Arena, list: &[usize]) -> bool
    requires { AllUnder (length arena.now.rows.items) list.now }
    ensures { result ≡ true → AreFree var (listed (tracks arena.now.rows.items) list.now) }
{
    for k in list {
        if part_at(var, arena, *k) != 0 {
            return false;
        }
    }
    true
}

/// The stage of a variable, by the equation at a place in the list.
fn eliminate_by(
    alloc: Global,
    var: u32,
    arena: &mut Arena,
    list: Vec<usize>,
    i: usize,
) -> Result<Vec<usize>, Stop>
    requires list { AllUnder (length arena.old.rows.items) list.items }
    requires solver { IsSolver var (tracks arena.old.rows.items) list.items i }
    ensures { GivesList result arena.old.rows.items arena.new.rows.items (sifted (made var (listed (tracks arena.old.rows.items) list.items)) 4096) }
{
    let mut rest = list;
    let equation = rest.remove(i);
    solve(alloc, var, arena, equation, &rest)
}

/// The stage of a variable.
pub(crate) fn run_stage(
    alloc: Global,
    var: u32,
    arena: &mut Arena,
    list: Vec<usize>,
) -> Result<Vec<usize>, Stop>
    requires { AllUnder (length arena.old.rows.items) list.items }
    ensures { GivesList result arena.old.rows.items arena.new.rows.items (sifted (made var (listed (tracks arena.old.rows.items) list.items)) 4096) }
{
    match solver_at(var, arena, &list) {
        Some(i) => eliminate_by(alloc, var, arena, list, i),
        None => bound(alloc, var, arena, &list),
    }
}
