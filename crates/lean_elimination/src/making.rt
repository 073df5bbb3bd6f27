//! Rows that are made of two rows.

ghost use Rattle.std.specs.Prelude.{◌≡◌, ◌<◌, ◌+◌, ◌*◌, ◌^◌, false, IfOk, IsTrue, Some, unsigned_abs, length};
ghost use Rattle.st_linear.specs.Linear.{is_within, are_within, is_zero};
ghost use Rattle.elimination_laws.specs.Mixing.{mixed, part_of};
ghost use Rattle.elimination_laws.specs.Stages.{freed, paired};
ghost use Rattle.lean_elimination.specs.Arenas.{tracks, row_at, tracked_row, IsMade};

use crate::adding::add;
use crate::arena::Arena;
use crate::factors::{against, part, quotient, shared};
use crate::merging::{mix_entries, mix_number};
use crate::row::{Origin, Parts, Row};
use crate::stop::Refusal;
use std::alloc::Global;

const ENTRY_LIMIT: u64 = 1 << 62;

/// Rows of larger multipliers are left to the whole elimination: the sum of a contradiction's multiples takes as many steps.
const BOUND_LIMIT: u64 = 1 << 16;

/// A bound of the multipliers of x times one row and y times another.
fn bound_of(x: &i64, first: u64, y: &i64, second: u64) -> Result<u64, Refusal>
    ensures value { IfOk result (λ n. n ≡ unsigned_abs x.now * first + unsigned_abs y.now * second) }
    ensures small { IfOk result (λ n. n < 2 ^ 16) }
{
    match (
        x.unsigned_abs().checked_mul(first),
        y.unsigned_abs().checked_mul(second),
    ) {
        (Some(p), Some(q)) => {
            if p < BOUND_LIMIT && q < BOUND_LIMIT && p + q < BOUND_LIMIT {
                Ok(p + q)
            } else {
                Err(Refusal::Unfit)
            }
        }
        _ => Err(Refusal::Unfit),
    }
}

/// Two rows and how often each is taken, where that is a number that this way is for.
#[tactic(auto, unfolding(st_linear::specs::Linear::is_within))]
fn parts_of(x: i64, first: usize, y: i64, second: usize) -> Result<Parts, Refusal>
    ensures x { IfOk result (λ p. p.x ≡ x) }
    ensures first { IfOk result (λ p. p.first ≡ first) }
    ensures y { IfOk result (λ p. p.y ≡ y) }
    ensures second { IfOk result (λ p. p.second ≡ second) }
{
    if x.unsigned_abs() < ENTRY_LIMIT && y.unsigned_abs() < ENTRY_LIMIT {
        Ok(Parts {
            x,
            first,
            y,
            second,
        })
    } else {
        Err(Refusal::Unfit)
    }
}

/// x times one row and y times another.
fn mix(
    alloc: Global,
    arena: &Arena,
    equal: bool,
    x: i64,
    i: usize,
    y: i64,
    j: usize,
) -> Result<Row, Refusal>
    requires i { i < length arena.now.rows.items }
    requires j { j < length arena.now.rows.items }
    ensures same { IfOk result (λ r. mixed equal x (row_at (tracks arena.now.rows.items) i) y (row_at (tracks arena.now.rows.items) j)
        ≡ Some (tracked_row (tracks arena.now.rows.items) r)) }
    ensures bounded { IfOk result (λ r. IsTrue (are_within (r.bound + 1) (tracked_row (tracks arena.now.rows.items) r).picks)) }
{
    let s = &arena.rows[i];
    let t = &arena.rows[j];
    let parts = parts_of(x, i, y, j)?;
    let bound = bound_of(&x, s.bound, &y, t.bound)?;
    let constant = mix_number(ENTRY_LIMIT, &x, &s.constant, &y, &t.constant)?;
    let entries = mix_entries(
        alloc,
        ENTRY_LIMIT,
        &x,
        s.entries.as_slice(),
        &y,
        t.entries.as_slice(),
    )?;
    Ok(Row {
        equal,
        constant,
        entries,
        origin: Origin::Sum(parts),
        bound,
    })
}

/// The coefficient of a variable in the row at a place.
pub(crate) fn part_at(var: u32, arena: &Arena, k: usize) -> i64
    requires { k < length arena.now.rows.items }
    ensures value { result ≡ part_of var (row_at (tracks arena.now.rows.items) k) }
    ensures within { IsTrue (is_within (2 ^ 62) result) }
{
    part(var, arena.rows[k].entries.as_slice())
}

/// A line, freed from the variable by an equation.
pub(crate) fn freed(
    alloc: Global,
    var: u32,
    arena: &mut Arena,
    equation: usize,
    k: usize,
) -> Result<usize, Refusal>
    requires equation { equation < length arena.old.rows.items }
    requires line { k < length arena.old.rows.items }
    requires solves { is_zero (part_of var (row_at (tracks arena.old.rows.items) equation)) ≡ false }
    ensures { IfOk result (λ m. IsMade arena.old.rows.items arena.new.rows.items m
        (freed var (row_at (tracks arena.old.rows.items) equation) (row_at (tracks arena.old.rows.items) k))) }
{
    let a = part_at(var, arena, k);
    if a == 0 {
        return Ok(k);
    }
    let c = part_at(var, arena, equation);
    let divisor = shared(&a, &c);
    let x = quotient(&c, divisor);
    let y = against(&a, &c, divisor);
    let equal = arena.rows[k].equal;
    let row = mix(alloc, arena, equal, x, k, y, equation)?;
    add(arena, row)
}

/// A lower bound and an upper bound, without the variable.
pub(crate) fn paired(
    alloc: Global,
    var: u32,
    arena: &mut Arena,
    lower: usize,
    upper: usize,
) -> Result<usize, Refusal>
    requires lower { lower < length arena.old.rows.items }
    requires upper { upper < length arena.old.rows.items }
    requires lower_has { is_zero (part_of var (row_at (tracks arena.old.rows.items) lower)) ≡ false }
    requires upper_has { is_zero (part_of var (row_at (tracks arena.old.rows.items) upper)) ≡ false }
    ensures { IfOk result (λ m. IsMade arena.old.rows.items arena.new.rows.items m
        (paired var (row_at (tracks arena.old.rows.items) lower) (row_at (tracks arena.old.rows.items) upper))) }
{
    let a = part_at(var, arena, lower);
    let c = part_at(var, arena, upper);
    let divisor = shared(&a, &c);
    let x = quotient(&c, divisor);
    let y = quotient(&a, divisor);
    let row = mix(alloc, arena, false, x, lower, y, upper)?;
    add(arena, row)
}
