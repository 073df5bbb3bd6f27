//! What statements with nothing inside can do, and tests.

ghost use Rattle.std.specs.Prelude.{◌≡◌, ◌∷◌, [], Some, false, if◌then◌else◌, IfOk, slice_get, slice_set};
ghost use Rattle.st_form.specs.Formula.{row};
ghost use Rattle.st_form.specs.Plain.{plain};
ghost use Rattle.st_form.specs.declared.conditions.Part.TheVariants.{Whole, Entry, Exit};
ghost use Rattle.st_form.specs.declared.conditions.TransName.TheVariants as names;
ghost use Rattle.st_program.specs.Plain.{plain_targets};
ghost use Rattle.st_program.specs.declared.residuals.Datum.TheVariants as data_;
ghost use Rattle.st_program.specs.Tree.{number};
ghost use Rattle.st_program.specs.Residuals as rests;
ghost use Rattle.spl_semantics.specs.Answers.{Answers};
ghost use Rattle.spl_semantics.specs.Data.{store_of, types, TargetsMeet};
ghost use Rattle.spl_semantics.specs.Limits.{wide_form, wide_formula, wide_targets};
ghost use Rattle.spl_semantics.specs.Plain.{plain_act, plain_acts, act_stores, AllOfTypes};
ghost use Rattle.spl_semantics.specs.Going.{act};
ghost use Rattle.spl_semantics.specs.Stores.{assigned, holds, one_less, one_more};

use crate::acts::Act;
use crate::effects;
use crate::evaluation::{is_true, sum_of};
use crate::faults::MoveFault;
use st_form::{Form, Part, TransName};
use st_memory::Memory;
use st_program::{Datum, Residual, Value};
use std::alloc::Global;

/// One step of the whole statement with this occurrence.
pub fn one(
    alloc: Global,
    occ: u32,
    mode: u32,
    left: Residual,
    store: Vec<Datum>,
) -> Result<Vec<Act>, Memory>
    ensures steps { IfOk result (λ v. plain_acts v.items
        ≡ act (names.Step occ Whole) mode (rests.plain_residual left) (store_of store.items) ∷ []) }
    ensures stores { IfOk result (λ v. act_stores v.items ≡ store.items ∷ []) }
{
    let mut acts = Vec::new(alloc);
    let name = TransName::Step {
        occ,
        part: Part::Whole,
    };
    acts.push(Act {
        name,
        mode,
        left,
        store,
    })?;
    Ok(acts)
}

/// One step that leaves the store as it is.
pub fn stay(
    alloc: Global,
    occ: u32,
    mode: u32,
    left: Residual,
    store: &[Datum],
) -> Result<Vec<Act>, Memory>
    ensures steps { IfOk result (λ v. plain_acts v.items
        ≡ act (names.Step occ Whole) mode (rests.plain_residual left) (store_of store.now) ∷ []) }
    ensures stores { IfOk result (λ v. AllOfTypes (types store.now) (act_stores v.items)) }
{
    let store = Vec::from_slice(alloc, store)?;
    one(alloc, occ, mode, left, store)
}

/// The step of an assignment.
pub fn assign_acts(
    alloc: Global,
    targets: &[(u32, Value)],
    occ: u32,
    store: &[Datum],
) -> Result<Vec<Act>, MoveFault>
    ensures steps { TargetsMeet (types store.now) (plain_targets targets.now) → Answers (λ v. plain_acts v.items) result
        (wide_targets (plain_targets targets.now) (store_of store.now))
        (act (names.Step occ Whole) 1 rests.Done (assigned (plain_targets targets.now) (store_of store.now)) ∷ []) }
    ensures stores { TargetsMeet (types store.now) (plain_targets targets.now)
        → IfOk result (λ v. AllOfTypes (types store.now) (act_stores v.items)) }
{
    let after = effects::assigned(alloc, targets, store)?;
    Ok(one(alloc, occ, 1, Residual::Done, after)?)
}

/// The step of an `await`, where its test holds.
pub fn await_acts(
    alloc: Global,
    test: &Form,
    occ: u32,
    store: &[Datum],
) -> Result<Vec<Act>, MoveFault>
    ensures steps { Answers (λ v. plain_acts v.items) result
        (wide_formula (plain test.now) (store_of store.now))
        (if holds (plain test.now) (store_of store.now)
        then act (names.Step occ Whole) 1 rests.Done (store_of store.now) ∷ [] else []) }
    ensures stores { IfOk result (λ v. AllOfTypes (types store.now) (act_stores v.items)) }
{
    if is_true(test, store)? {
        Ok(stay(alloc, occ, 1, Residual::Done, store)?)
    } else {
        Ok(Vec::new(alloc))
    }
}

/// The step by a test: mode 1 where it holds, mode 2 where it doesn't.
pub fn test_acts(
    alloc: Global,
    test: &Form,
    occ: u32,
    yes: Residual,
    no: Residual,
    store: &[Datum],
) -> Result<Vec<Act>, MoveFault>
    ensures steps { Answers (λ v. plain_acts v.items) result
        (wide_formula (plain test.now) (store_of store.now))
        (if holds (plain test.now) (store_of store.now)
        then act (names.Step occ Whole) 1 (rests.plain_residual yes) (store_of store.now) ∷ []
        else act (names.Step occ Whole) 2 (rests.plain_residual no) (store_of store.now) ∷ []) }
    ensures stores { IfOk result (λ v. AllOfTypes (types store.now) (act_stores v.items)) }
{
    if is_true(test, store)? {
        Ok(stay(alloc, occ, 1, yes, store)?)
    } else {
        Ok(stay(alloc, occ, 2, no, store)?)
    }
}

/// A step that gives a variable a number.
fn count_acts(
    alloc: Global,
    occ: u32,
    variable: u32,
    number: i128,
    store: &[Datum],
) -> Result<Vec<Act>, Memory>
    ensures steps { IfOk result (λ v. plain_acts v.items
        ≡ act (names.Step occ Whole) 1 rests.Done (store_of (slice_set store.now variable (data_.Number number))) ∷ []) }
    ensures stores { slice_get (types store.now) variable ≡ Some false → IfOk result (λ v. AllOfTypes (types store.now) (act_stores v.items)) }
{
    let mut after = Vec::from_slice(alloc, store)?;
    effects::put(&mut after, variable, Datum::Number(number));
    one(alloc, occ, 1, Residual::Done, after)
}

/// The step of a request, where its variable is above 0.
pub fn request_acts(
    alloc: Global,
    variable: u32,
    occ: u32,
    store: &[Datum],
) -> Result<Vec<Act>, MoveFault>
    ensures steps { slice_get (types store.now) variable ≡ Some false → Answers (λ v. plain_acts v.items) result
        (wide_form (one_less variable) (store_of store.now))
        (if holds (row (one_less variable)) (store_of store.now)
        then act (names.Step occ Whole) 1 rests.Done (assigned ((variable, number (one_less variable)) ∷ []) (store_of store.now)) ∷ []
        else []) }
    ensures stores { slice_get (types store.now) variable ≡ Some false
        → IfOk result (λ v. AllOfTypes (types store.now) (act_stores v.items)) }
{
    let left = sum_of(store, &[(variable, 1)], -1)?;
    if left >= 0 {
        Ok(count_acts(alloc, occ, variable, left, store)?)
    } else {
        Ok(Vec::new(alloc))
    }
}

/// The step of a release.
pub fn release_acts(
    alloc: Global,
    variable: u32,
    occ: u32,
    store: &[Datum],
) -> Result<Vec<Act>, MoveFault>
    ensures steps { slice_get (types store.now) variable ≡ Some false → Answers (λ v. plain_acts v.items) result
        (wide_form (one_more variable) (store_of store.now))
        (act (names.Step occ Whole) 1 rests.Done (assigned ((variable, number (one_more variable)) ∷ []) (store_of store.now)) ∷ []) }
    ensures stores { slice_get (types store.now) variable ≡ Some false
        → IfOk result (λ v. AllOfTypes (types store.now) (act_stores v.items)) }
{
    let risen = sum_of(store, &[(variable, 1)], 1)?;
    Ok(count_acts(alloc, occ, variable, risen, store)?)
}

/// The entry of a cooperation with these children.
#[tactic(auto, using(st_program::proofs::ResidualRows::residuals))]
pub fn enter(
    alloc: Global,
    occ: u32,
    children: Vec<Residual>,
    store: &[Datum],
) -> Result<Vec<Act>, Memory>
    ensures steps { IfOk result (λ v. plain_acts v.items
        ≡ act (names.Step occ Entry) 1 (rests.Inside occ (rests.plain_residuals children.items)) (store_of store.now) ∷ []) }
    ensures stores { IfOk result (λ v. AllOfTypes (types store.now) (act_stores v.items)) }
{
    let mut acts = Vec::new(alloc);
    let name = TransName::Step {
        occ,
        part: Part::Entry,
    };
    acts.push(Act {
        name,
        mode: 1,
        left: Residual::Inside {
            coop: occ,
            children,
        },
        store: Vec::from_slice(alloc, store)?,
    })?;
    Ok(acts)
}

/// The exit of a cooperation, all of whose children have ended.
pub fn leave(alloc: Global, occ: u32, store: &[Datum]) -> Result<Act, Memory>
    ensures step { IfOk result (λ a. plain_act a
        ≡ act (names.Step occ Exit) 1 rests.Done (store_of store.now)) }
    ensures store { IfOk result (λ a. types a.store.items ≡ types store.now) }
{
    let name = TransName::Step {
        occ,
        part: Part::Exit,
    };
    Ok(Act {
        name,
        mode: 1,
        left: Residual::Done,
        store: Vec::from_slice(alloc, store)?,
    })
}
