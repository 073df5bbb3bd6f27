//! Where a goal first fails on a run.

ghost use Rattle.std.specs.Prelude.{◌≡◌, ◌↔◌, ℕ, List, suc, ◌≤◌, ◌<◌, ◌^◌, max, Bool, true, false, length, slice_get, if◌then◌else◌, IsTrue, IfOk, ℤ, pos};
ghost use Rattle.observations.specs.Observation.{Observation, last};
ghost use Rattle.observations.specs.Goals.{at_least_zero, HoldsAt, RespondsFrom, WaitsFrom};
ghost use Rattle.st_form.specs.Formula.{Situation};
ghost use Rattle.run_judging.specs.Shown.{Shows, AreFlags, AreValues, AreRows};
ghost use Rattle.run_judging.specs.Judging.{IsFirstFailure, Responds, is_level, IsLowest};

use crate::counting::rounds_before;
use crate::course::{Course, row_at};
use st_memory::Memory;
use std::alloc::Global;

/// The least position whose flag isn't set.
fn first_unset(flags: &[bool]) -> Option<u32>
    requires { length flags.now < 2 ^ 32 }
    ensures { IsFirstFailure (length flags.now) (λ i. slice_get flags.now i ≡ Some true) result }
{
    for position in 0..flags.len() {
        if !flags[position] {
            return Some(position as u32);
        }
    }
    None
}

/// An invariance: the flags say in which states its formula holds.
pub fn invariance_failure(flags: &[bool]) -> Option<u32>
    requires { length flags.now < 2 ^ 32 }
    ensures { (o : Observation Situation) (p : Situation → Bool) → AreFlags p o flags.now → IsFirstFailure (suc (last o)) (HoldsAt p o) result }
{
    first_unset(flags)
}

/// Whether the bound allows no more rounds than these.
fn is_within(bound: &i128, most: u32) -> bool
    ensures { (result ≡ true) ↔ (at_least_zero bound.now ≤ most) }
{
    *bound <= i128::from(most)
}

/// The greatest number of rounds ahead before the target, one position earlier.
fn most_ahead(most: u32, target: bool, count: u32) -> u32
    ensures { result ≡ (if target then 0 else max most count) }
{
    if target { 0 } else { most.max(count) }
}

/// Whether the response fails from a position.
fn is_missed(premise: bool, target: bool, bound: &i128, most: u32) -> bool
    ensures { (result ≡ true) ↔ ((premise ≡ true) × (target ≡ false) × (at_least_zero bound.now ≤ most)) }
{
    if target {
        false
    } else if premise {
        is_within(bound, most)
    } else {
        false
    }
}

/// A response, from how many rounds begin at each position and end before the target.
fn failure_in_numbers(
    premise: &[bool],
    target: &[bool],
    bounds: &[i128],
    counts: &[u32],
) -> Option<u32>
    requires fits { length counts.now < 2 ^ 32 }
    requires premise { length premise.now ≡ length counts.now }
    requires target { length target.now ≡ length counts.now }
    requires bounds { length bounds.now ≡ length counts.now }
    ensures { IsFirstFailure (length counts.now) (Responds premise.now target.now bounds.now counts.now) result }
{
    let mut failure = None;
    let mut most = 0;
    let mut position = counts.len();
    while position > 0 {
        position -= 1;
        most = most_ahead(most, target[position], counts[position]);
        if is_missed(premise[position], target[position], &bounds[position], most) {
            failure = Some(position as u32);
        }
    }
    failure
}

/// A response: the flags say in which states the premise and the target hold, the numbers what the bound is there.
pub fn response_failure(
    alloc: Global,
    course: &Course,
    premise: &[bool],
    target: &[bool],
    bounds: &[i128],
) -> Result<Option<u32>, Memory>
    requires fits { length course.now.enabled.items < 2 ^ 32 }
    requires premise { length premise.now ≡ length course.now.enabled.items }
    requires target { length target.now ≡ length course.now.enabled.items }
    requires bounds { length bounds.now ≡ length course.now.enabled.items }
    ensures { IfOk result (λ failure. (o : Observation Situation) (p q : Situation → Bool) (e : Situation → ℤ) → Shows course.now o
        → AreFlags p o premise.now → AreFlags q o target.now → AreValues e o bounds.now
        → IsFirstFailure (suc (last o)) (RespondsFrom p q e o) failure) }
{
    let counts = rounds_before(alloc, course, target)?;
    Ok(failure_in_numbers(premise, target, bounds, &counts))
}

/// Whether the level of the position may be this one: its formulas' flags go from the highest level down to level 0.
fn is_level(row: &[bool], level: usize) -> bool
    ensures { result ≡ is_level row.now level }
{
    for (index, flag) in row.iter().enumerate() {
        if level == row.len() - 1 - index {
            return *flag;
        }
    }
    false
}

/// The lowest level that a position may have: 0 where that formula holds, and else one that the next position's isn't above.
/// It is no level where there is none.
fn lowest_level(row: &[bool], after: usize) -> usize
    ensures { IsLowest row.now after result }
{
    if is_level(row, 0) {
        return 0;
    }
    for level in after.max(1)..row.len() {
        if is_level(row, level) {
            return level;
        }
    }
    row.len().max(1)
}

/// Whether there are no levels from a position: no level of its row is low enough.
fn is_stuck(premise: bool, row: &[bool], lowest: usize) -> bool
    ensures { (result ≡ true) ↔ ((premise ≡ true) × (length row.now ≤ lowest)) }
{
    if premise { row.len() <= lowest } else { false }
}

/// A nested waiting-for: the flags say in which states the premise holds, each row which formulas hold in a state, from the
/// highest level down.
pub fn waiting_failure(premise: &[bool], rows: &[Vec<bool>]) -> Option<u32>
    requires fits { length rows.now < 2 ^ 32 }
    requires premise { length premise.now ≡ length rows.now }
    ensures { (o : Observation Situation) (p : Situation → Bool) (forms : List (Situation → Bool)) → AreFlags p o premise.now → AreRows forms o rows.now
        → IsFirstFailure (suc (last o)) (WaitsFrom p forms o) result }
{
    let mut failure = None;
    let mut lowest = 0;
    let mut position = rows.len();
    while position > 0 {
        position -= 1;
        let row = row_at(rows, position);
        lowest = lowest_level(row, lowest);
        if is_stuck(premise[position], row, lowest) {
            failure = Some(position as u32);
        }
    }
    failure
}
