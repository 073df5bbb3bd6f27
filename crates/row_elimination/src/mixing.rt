//! Sums of multiples of lines, within limits, and what a line is multiplied by.

ghost use Rattle.std.specs.Prelude.{◌≡◌, ◌<◌, ◌≢◌, ◌^◌, ◌/◌, false, IsTrue, unsigned_abs, pos};
ghost use Rattle.st_linear.specs.Answers.{Gives};
ghost use Rattle.st_linear.specs.Linear.{is_within, are_within, is_zero};
ghost use Rattle.elimination_laws.specs.Mixing.{mixed, part, shared, second_factor, differ, against};
ghost use Rattle.elimination_laws.specs.Stages.{freed, paired};
ghost use Rattle.row_elimination.specs.Plain.{tracked_row};

use crate::merging::{mix_entries, mix_number};
use crate::row::Row;
use st_linear::{LinFault, gcd};
use std::alloc::Global;

const ENTRY_LIMIT: u128 = 1 << 100;

const PICK_LIMIT: u128 = 1 << 40;

/// x times one line and y times another.
#[tactic(auto, unfolding(elimination_laws::specs::Mixing::mixed))]
pub(crate) fn mix(
    alloc: Global,
    equal: bool,
    x: &i128,
    s: &Row,
    y: &i128,
    t: &Row,
) -> Result<Row, LinFault>
    ensures { Gives tracked_row result (mixed equal x.now (tracked_row s.now) y.now (tracked_row t.now)) }
{
    let constant = mix_number(ENTRY_LIMIT, x, &s.constant, y, &t.constant)?;
    let entries = mix_entries(
        alloc,
        ENTRY_LIMIT,
        x,
        s.entries.as_slice(),
        y,
        t.entries.as_slice(),
    )?;
    let picks = mix_entries(
        alloc,
        PICK_LIMIT,
        x,
        s.picks.as_slice(),
        y,
        t.picks.as_slice(),
    )?;
    Ok(Row {
        equal,
        constant,
        entries,
        picks,
    })
}

/// The coefficient of a variable.
pub(crate) fn part(var: u32, entries: &[(u32, i128)]) -> i128
    requires { IsTrue (are_within (2 ^ 100) entries.now) }
    ensures value { result ≡ part var entries.now }
    ensures within { IsTrue (is_within (2 ^ 100) result) }
{
    for e in entries {
        if e.0 == var {
            return e.1;
        }
    }
    0
}

fn shared(a: &i128, c: &i128) -> u128
    requires a { a.now ≢ pos 0 }
    requires c { c.now ≢ pos 0 }
    requires a_within { IsTrue (is_within (2 ^ 100) a.now) }
    requires c_within { IsTrue (is_within (2 ^ 100) c.now) }
    ensures value { result ≡ shared a.now c.now }
    ensures positive { 0 < result }
{
    gcd(a.unsigned_abs(), c.unsigned_abs())
}

/// How often a number below 2^100 in size holds a divisor.
#[tactic(auto, unfolding(st_linear::specs::Linear::is_within))]
fn quotient(x: &i128, by: u128) -> i128
    requires within { IsTrue (is_within (2 ^ 100) x.now) }
    requires positive { 0 < by }
    ensures { result ≡ pos (unsigned_abs x.now / by) }
{
    (x.unsigned_abs() / by) as i128
}

fn differ(a: &i128, c: &i128) -> bool
    ensures { result ≡ differ a.now c.now }
{
    (*a < 0) != (*c < 0)
}

/// A line, freed from the variable by an equation.
pub(crate) fn freed(alloc: Global, var: u32, equation: &Row, line: Row) -> Result<Row, LinFault>
    requires { is_zero (part var equation.now.entries.items) ≡ false }
    ensures { Gives tracked_row result (freed var (tracked_row equation.now) (tracked_row line)) }
{
    let a = part(var, line.entries.as_slice());
    if a == 0 {
        return Ok(line);
    }
    let c = part(var, equation.entries.as_slice());
    let divisor = shared(&a, &c);
    let x = quotient(&c, divisor);
    let y = against(&a, &c, divisor);
    mix(alloc, line.equal, &x, &line, &y, equation)
}

#[tactic(auto, unfolding(elimination_laws::specs::Mixing::against, elimination_laws::specs::Mixing::second_factor))]
fn against(a: &i128, c: &i128, divisor: u128) -> i128
    requires within { IsTrue (is_within (2 ^ 100) a.now) }
    requires positive { 0 < divisor }
    requires divisor { divisor ≡ shared a.now c.now }
    ensures { result ≡ against a.now c.now }
{
    let y = quotient(a, divisor);
    if differ(a, c) { y } else { -y }
}

/// A lower bound and an upper bound, without the variable.
pub(crate) fn paired(alloc: Global, var: u32, lower: &Row, upper: &Row) -> Result<Row, LinFault>
    requires lower { is_zero (part var lower.now.entries.items) ≡ false }
    requires upper { is_zero (part var upper.now.entries.items) ≡ false }
    ensures { Gives tracked_row result (paired var (tracked_row lower.now) (tracked_row upper.now)) }
{
    let a = part(var, lower.entries.as_slice());
    let c = part(var, upper.entries.as_slice());
    let divisor = shared(&a, &c);
    let x = quotient(&c, divisor);
    let y = quotient(&a, divisor);
    mix(alloc, false, &x, lower, &y, upper)
}
