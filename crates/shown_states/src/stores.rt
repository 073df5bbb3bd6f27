//! The values behind a change. All are read in the state before: a variable has what the first entry for it gives, and else keeps
//! what it has.

ghost use Rattle.std.specs.Prelude.{◌≡◌, ℕ, IfOk, MatchResult, map, slice_get};
ghost use Rattle.std.specs.Option.{option_copied, option_map};
ghost use Rattle.st_linear.specs.Linear.{form_for};
ghost use Rattle.st_form.specs.Plain.{plain, plain_change};
ghost use Rattle.spl_semantics.specs.Answers.{Answers};
ghost use Rattle.spl_semantics.specs.Data.{store_of};
ghost use Rattle.spl_semantics.specs.declared.faults.MoveFault.TheVariants.{ValueLimit};
ghost use Rattle.shown_states.specs.Pictures.{seen};
ghost use Rattle.shown_states.specs.Behind.{formula_for, datum_behind, wide_for, IsWide, IsNarrow};

use crate::pictures::Picture;
use spl_semantics::{MoveFault, is_true_at, value_of};
use st_form::{Change, Form, Lin};
use st_program::Datum;
use std::alloc::Global;

/// The sum that is listed first for a variable.
fn sum_for(numbers: &[(u32, Lin)], variable: usize) -> Option<&Lin>
    ensures { option_copied result ≡ form_for variable numbers.now }
{
    for pair in numbers {
        if pair.0 as usize == variable {
            return Some(&pair.1);
        }
    }
    None
}

/// The formula that is listed first for a variable.
fn formula_for(truths: &[(u32, Form)], variable: usize) -> Option<&Form>
    ensures { option_map plain (option_copied result) ≡ formula_for variable (map (λ p. (p.0, plain p.1)) truths.now) }
{
    for entry in truths {
        if entry.0 as usize == variable {
            return Some(&entry.1);
        }
    }
    None
}

/// What a variable is behind a change; `ValueLimit` exactly where a number on the way to it is of size 2^126 or more.
fn datum_behind(
    before: &Picture,
    change: &Change,
    variable: usize,
    datum: Datum,
) -> Result<Datum, MoveFault>
    ensures { Answers (λ d. d) result
        (wide_for (plain_change change.now) (store_of before.now.store.items) variable)
        (datum_behind (plain_change change.now) (seen before.now) variable datum) }
{
    match sum_for(&change.numbers, variable) {
        Some(sum) => Ok(Datum::Number(value_of(sum, &before.store)?)),
        None => match formula_for(&change.truths, variable) {
            Some(form) => Ok(Datum::Truth(is_true_at(form, &before.store, &before.fronts)?)),
            None => Ok(datum),
        },
    }
}

/// The values behind a change; `ValueLimit` where a number on the way to one of them is of size 2^126 or more.
pub(crate) fn store_behind(
    alloc: Global,
    before: &Picture,
    change: &Change,
) -> Result<Vec<Datum>, MoveFault>
    ensures values { IfOk result (λ v. (k : ℕ) → slice_get v.items k
        ≡ option_map (datum_behind (plain_change change.now) (seen before.now) k) (slice_get before.now.store.items k)) }
    ensures told { MatchResult result
        (λ v. IsNarrow (plain_change change.now) before.now.store.items)
        (λ fault. fault ≡ ValueLimit → IsWide (plain_change change.now) before.now.store.items) }
{
    let mut store = Vec::new(alloc);
    for (variable, datum) in before.store.iter().enumerate() {
        let behind = datum_behind(before, change, variable, *datum)?;
        store.push(behind)?;
    }
    Ok(store)
}
