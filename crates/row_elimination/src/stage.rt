//! The stage of one variable.

ghost use Rattle.std.specs.Prelude.{◌≡◌, ◌≢◌, ◌≤◌, ◌<◌, ◌+◌, ◌^◌, ◌++◌, [], map, false, true, length, IfOk, IsTrue, MatchOption, slice_index_or, take, drop, Some, None, vec_len, ℕ, ℤ, pos, neg_ℤ};
ghost use Rattle.elimination_laws.specs.Mixing.{part};
ghost use Rattle.st_linear.specs.Linear.{is_zero, is_within, are_within};
ghost use Rattle.elimination_laws.specs.Stages.{turned, freed, paired, solves, solver, others, kept_by, is_free, bounds_below, bounds_above, pairs, made_with, use_with, made, use_of, sifted};
ghost use Rattle.row_elimination.specs.Plain.{tracked_row, rows};
ghost use Rattle.row_elimination.specs.Places.{Places, GivesRows, GivesStage, GivesSorted, IsSide, IsSolver, HaveAll, placed_on, sift_from, then_sifted};

use crate::halt::Halt;
use crate::mixing::{freed, paired, part};
use crate::row::Row;
use st_memory::Memory;
use std::alloc::Global;
use std::collections::VecDeque;

const MOST_LINES: usize = 4096;

/// The picks of a contradiction.
fn answer(alloc: Global, picks: &[(u32, i128)]) -> Result<Vec<(u32, i64)>, Memory>
    requires { IsTrue (are_within (2 ^ 40) picks.now) }
    ensures { IfOk result (λ v. v.items ≡ picks.now) }
{
    let mut out = Vec::with_capacity(alloc, picks.len())?;
    for p in picks {
        out.push((p.0, narrow(&p.1)))?;
    }
    Ok(out)
}

/// The picks of a contradiction, each with the other sign.
fn turned_answer(alloc: Global, picks: &[(u32, i128)]) -> Result<Vec<(u32, i64)>, Memory>
    requires { IsTrue (are_within (2 ^ 40) picks.now) }
    ensures { IfOk result (λ v. v.items ≡ turned picks.now) }
{
    let mut out = Vec::with_capacity(alloc, picks.len())?;
    for p in picks {
        out.push((p.0, turn(&p.1)))?;
    }
    Ok(out)
}

#[tactic(auto, unfolding(st_linear::specs::Linear::is_within))]
fn narrow(x: &i128) -> i64
    requires { IsTrue (is_within (2 ^ 40) x.now) }
    ensures { result ≡ x.now }
{
    *x as i64
}

#[tactic(auto, unfolding(st_linear::specs::Linear::is_within))]
fn turn(x: &i128) -> i64
    requires { IsTrue (is_within (2 ^ 40) x.now) }
    ensures { result ≡ neg_ℤ x.now }
{
    (-*x) as i64
}

/// Puts a line into a new list, unless it is a constant.
pub(crate) fn place(alloc: Global, next: &mut Vec<Row>, row: Row) -> Result<(), Halt>
    requires { vec_len next.old ≤ 4096 }
    ensures exact { Places result (rows next.new.items) (placed_on (rows next.old.items) (tracked_row row)) }
    ensures room { vec_len next.new ≤ 4096 }
{
    if row.entries.is_empty() {
        if row.constant < 0 {
            return Err(Halt::Clash(answer(alloc, row.picks.as_slice())?));
        }
        if row.equal && row.constant > 0 {
            return Err(Halt::Clash(turned_answer(alloc, row.picks.as_slice())?));
        }
        return Ok(());
    }
    if next.len() >= MOST_LINES {
        return Err(Halt::Wide);
    }
    next.push(row)?;
    Ok(())
}

/// Each line, freed from the variable by the equation.
fn solve(alloc: Global, var: u32, equation: &Row, lines: Vec<Row>) -> Result<Vec<Row>, Halt>
    requires { is_zero (part var equation.now.entries.items) ≡ false }
    ensures { GivesRows result (sift_from [] (map (freed var (tracked_row equation.now)) (rows lines.items))) }
{
    let mut next = Vec::with_capacity(alloc, lines.len())?;
    let mut rest = VecDeque::from_vec(lines);
    while let Some(line) = rest.pop_front() {
        let made = freed(alloc, var, equation, line)?;
        place(alloc, &mut next, made)?;
    }
    Ok(next)
}

/// A lower bound with each upper bound.
fn pair_with(
    alloc: Global,
    var: u32,
    next: &mut Vec<Row>,
    lower: &Row,
    uppers: &[Row],
) -> Result<(), Halt>
    requires room { vec_len next.old ≤ 4096 }
    requires lower { is_zero (part var lower.now.entries.items) ≡ false }
    requires uppers { HaveAll var uppers.now }
    ensures exact { Places result (rows next.new.items) (sift_from (rows next.old.items) (map (paired var (tracked_row lower.now)) (rows uppers.now))) }
    ensures room { vec_len next.new ≤ 4096 }
{
    for upper in uppers {
        let made = paired(alloc, var, lower, upper)?;
        place(alloc, next, made)?;
    }
    Ok(())
}

/// Each lower bound with each upper bound.
fn pair_all(
    alloc: Global,
    var: u32,
    next: &mut Vec<Row>,
    lowers: &[Row],
    uppers: &[Row],
) -> Result<(), Halt>
    requires room { vec_len next.old ≤ 4096 }
    requires lowers { HaveAll var lowers.now }
    requires uppers { HaveAll var uppers.now }
    ensures exact { Places result (rows next.new.items) (sift_from (rows next.old.items) (pairs var (rows lowers.now) (rows uppers.now))) }
    ensures room { vec_len next.new ≤ 4096 }
{
    for lower in lowers {
        pair_with(alloc, var, next, lower, uppers)?;
    }
    Ok(())
}

/// How a variable's value is found: by an equation, or between lower and upper bounds.
#[derive(Drop)]
pub(crate) enum Used {
    Equation(Row),
    Bounds(Vec<Row>, Vec<Row>),
}

#[derive(Drop)]
pub(crate) struct Stage {
    pub(crate) next: Vec<Row>,
    pub(crate) used: Used,
}

fn solves(var: u32, line: &Row) -> bool
    ensures { result ≡ solves var (tracked_row line.now) }
{
    line.equal && part(var, line.entries.as_slice()) != 0
}

/// The place of the first equation with the variable.
fn solver_at(var: u32, lines: &[Row]) -> Option<usize>
    ensures { MatchOption result (solver var (rows lines.now) ≡ None) (λ k. IsSolver var lines.now k) }
{
    for i in 0..lines.len() {
        if solves(var, &lines[i]) {
            return Some(i);
        }
    }
    None
}

#[derive(Drop)]
struct Sorted {
    next: Vec<Row>,
    lowers: Vec<Row>,
    uppers: Vec<Row>,
}

/// The lines without a variable, and those that bound it from below and from above.
fn sort(alloc: Global, var: u32, lines: Vec<Row>) -> Result<Sorted, Halt>
    ensures { GivesSorted result var (rows lines.items) }
{
    let mut next = Vec::new(alloc);
    let mut lowers = Vec::new(alloc);
    let mut uppers = Vec::new(alloc);
    let mut rest = VecDeque::from_vec(lines);
    while let Some(line) = rest.pop_front() {
        match side_of(var, &line) {
            Side::Free => place(alloc, &mut next, line)?,
            Side::Below => lowers.push(line)?,
            Side::Above => uppers.push(line)?,
        }
    }
    Ok(Sorted {
        next,
        lowers,
        uppers,
    })
}

enum Side {
    Free,
    Below,
    Above,
}

fn side_of(var: u32, line: &Row) -> Side
    ensures { IsSide (part var line.now.entries.items) result }
{
    let a = part(var, line.entries.as_slice());
    if a == 0 {
        Side::Free
    } else if a > 0 {
        Side::Below
    } else {
        Side::Above
    }
}

/// The stage of a variable that no equation has.
fn bound(alloc: Global, var: u32, lines: Vec<Row>) -> Result<Stage, Halt>
    ensures { GivesStage result (sift_from [] (made_with var None (rows lines.items))) (use_with var None (rows lines.items)) }
{
    let Sorted {
        mut next,
        lowers,
        uppers,
    } = sort(alloc, var, lines)?;
    pair_all(alloc, var, &mut next, &lowers, &uppers)?;
    Ok(Stage {
        next,
        used: Used::Bounds(lowers, uppers),
    })
}

/// The stage of a variable.
pub(crate) fn run_stage(alloc: Global, var: u32, lines: Vec<Row>) -> Result<Stage, Halt>
    ensures { GivesStage result (sifted (made var (rows lines.items)) 4096) (use_of var (rows lines.items)) }
{
    match solver_at(var, &lines) {
        Some(k) => eliminate_by(alloc, var, lines, k),
        None => bound(alloc, var, lines),
    }
}

/// The stage of a variable, by an equation.
fn eliminate_by(alloc: Global, var: u32, lines: Vec<Row>, k: usize) -> Result<Stage, Halt>
    requires { IsSolver var lines.items k }
    ensures { GivesStage result (sifted (made var (rows lines.items)) 4096) (use_of var (rows lines.items)) }
{
    let mut rest = lines;
    let equation = rest.remove(k);
    let next = solve(alloc, var, &equation, rest)?;
    Ok(Stage {
        next,
        used: Used::Equation(equation),
    })
}
