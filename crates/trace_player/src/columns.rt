//! Formulas and bounds in the states of a run, each up to the first state in which a number on the way is too large. So a list
//! tells by its length how far the values are clear.

ghost use Rattle.std.specs.Prelude.{◌≡◌, IfOk, length, map};
ghost use Rattle.st_linear.specs.Linear.{value};
ghost use Rattle.st_form.specs.Plain.{plain};
ghost use Rattle.temporal_goals.specs.Meaning.{test_of};
ghost use Rattle.spl_semantics.specs.Answers.{Answers};
ghost use Rattle.spl_semantics.specs.Limits.{wide_form};
ghost use Rattle.spl_semantics.specs.Data.{seen_at};
ghost use Rattle.trace_player.specs.Columns.{sights, stores, column, is_wide_formula, some_wide, row_of};

use spl_semantics::{MoveFault, is_true_at, value_of};
use st_form::{Form, Lin};
use st_memory::Memory;
use st_program::{Datum, State};
use std::alloc::Global;

/// Whether the formula holds in each state.
pub fn truths(
    alloc: Global,
    form: &Form,
    states: &[State],
    fronts: &[Vec<u32>],
) -> Result<Vec<bool>, Memory>
    requires { length fronts.now ≡ length states.now }
    ensures { IfOk result (λ v. v.items ≡ column (is_wide_formula (plain form.now)) (test_of (plain form.now)) (sights states.now fronts.now)) }
{
    let mut truths = Vec::with_capacity(alloc, states.len())?;
    for position in 0..states.len() {
        match is_true_at(form, &states[position].store, &fronts[position]) {
            Ok(truth) => truths.push(truth)?,
            Err(MoveFault::ValueLimit) => return Ok(truths),
            Err(MoveFault::Memory) => return Err(Memory),
        }
    }
    Ok(truths)
}

/// The value of the bound in each state.
pub fn numbers(alloc: Global, bound: &Lin, states: &[State]) -> Result<Vec<i128>, Memory>
    ensures { IfOk result (λ v. v.items ≡ column (λ s. wide_form bound.now s) (λ s. value s.numbers bound.now) (stores states.now)) }
{
    let mut numbers = Vec::with_capacity(alloc, states.len())?;
    for state in states {
        match value_of(bound, &state.store) {
            Ok(number) => numbers.push(number)?,
            Err(MoveFault::ValueLimit) => return Ok(numbers),
            Err(MoveFault::Memory) => return Err(Memory),
        }
    }
    Ok(numbers)
}

/// Whether each of the formulas holds, with control at these locations.
fn row(
    alloc: Global,
    forms: &[Form],
    store: &[Datum],
    fronts: &[u32],
) -> Result<Vec<bool>, MoveFault>
    ensures { Answers (λ v. v.items) result
        (some_wide (map plain forms.now) (seen_at store.now fronts.now))
        (row_of (map plain forms.now) (seen_at store.now fronts.now)) }
{
    let mut row = Vec::with_capacity(alloc, forms.len())?;
    for form in forms {
        row.push(is_true_at(form, store, fronts)?)?;
    }
    Ok(row)
}

/// Whether each of the formulas holds in each state.
pub fn rows(
    alloc: Global,
    forms: &[Form],
    states: &[State],
    fronts: &[Vec<u32>],
) -> Result<Vec<Vec<bool>>, Memory>
    requires { length fronts.now ≡ length states.now }
    ensures { IfOk result (λ v. map (λ r. r.items) v.items
        ≡ column (some_wide (map plain forms.now)) (row_of (map plain forms.now)) (sights states.now fronts.now)) }
{
    let mut rows = Vec::with_capacity(alloc, states.len())?;
    for position in 0..states.len() {
        match row(alloc, forms, &states[position].store, &fronts[position]) {
            Ok(row) => rows.push(row)?,
            Err(MoveFault::ValueLimit) => return Ok(rows),
            Err(MoveFault::Memory) => return Err(Memory),
        }
    }
    Ok(rows)
}
