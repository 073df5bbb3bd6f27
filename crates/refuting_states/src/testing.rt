//! The state that the second search comes to, tested: what is given is true there, and what is to be shown false. So nothing rests on how it
//! was found.

ghost use Rattle.std.specs.Prelude.{◌≡◌, true, false, IfOk, IfSome, map};
ghost use Rattle.st_form.specs.Formula.{every_truth, formulas, some_truth, truth};
ghost use Rattle.st_form.specs.Plain.{plain, plain_list};
ghost use Rattle.st_form.specs.Shared.{case_of, consequent_of, given_of, shown_of};
ghost use Rattle.farkas_check.specs.Limits.{IsNarrow};
ghost use Rattle.shown_states.specs.Pictures.{seen};
ghost use Rattle.refuting_states.specs.Refuting.{IsRefuting};

use control_states::Components;
use eager_search::refuting_state;
use shown_states::Picture;
use st_form::{Condition, Consequent, SharedForm, Variable};
use st_memory::Memory;
use std::alloc::Global;

/// At most so many problems are looked at, as where the second search is asked for a certificate.
const MOST_PROBLEMS: u32 = 50_000;

/// Whether a formula is told to be true in a state.
fn is_true(picture: &Picture, form: &SharedForm) -> bool
    ensures { result ≡ true → truth (seen picture.now) (plain form.now) ≡ true }
{
    match picture.holds(form.get()) {
        Some(holds) => holds,
        None => false,
    }
}

/// Whether a formula is told to be false in a state.
fn is_false(picture: &Picture, form: &SharedForm) -> bool
    ensures { result ≡ true → truth (seen picture.now) (plain form.now) ≡ false }
{
    match picture.holds(form.get()) {
        Some(holds) => !holds,
        None => false,
    }
}

/// Whether all of these are told to be true.
fn are_true(picture: &Picture, forms: &[SharedForm]) -> bool
    ensures { result ≡ true → every_truth (seen picture.now) (plain_list forms.now) ≡ true }
{
    for form in forms {
        if !is_true(picture, form) {
            return false;
        }
    }
    true
}

/// Whether one of these is told to be false.
fn is_false_case(picture: &Picture, forms: &[SharedForm]) -> bool
    ensures { result ≡ true → every_truth (seen picture.now) (plain_list forms.now) ≡ false }
{
    for form in forms {
        if is_false(picture, form) {
            return true;
        }
    }
    false
}

/// Whether each of these cases is told to be false.
fn are_false_cases(picture: &Picture, cases: &[Vec<SharedForm>]) -> bool
    ensures { result ≡ true → some_truth (seen picture.now) (formulas (map case_of cases.now)) ≡ false }
{
    for case in cases {
        if !is_false_case(picture, case) {
            return false;
        }
    }
    true
}

/// Whether what is to be shown is told to be false.
fn is_missed(picture: &Picture, shown: &Consequent) -> bool
    ensures { result ≡ true → truth (seen picture.now) (consequent_of shown.now) ≡ false }
{
    match shown {
        Consequent::One(form) => is_false(picture, form),
        Consequent::Any(cases) => are_false_cases(picture, cases),
    }
}

/// The state, if it refutes the condition.
fn if_refuting(picture: Picture, condition: &Condition) -> Option<Picture>
    ensures { IfSome result (IsRefuting condition.now) }
{
    if are_true(&picture, &condition.given) && is_missed(&picture, &condition.shown) {
        return Some(picture);
    }
    None
}

/// A state in which a condition is false, if the second search comes to one: what is given is true in it, and what is to be shown false.
/// The condition's numbers are below 2^69 in size.
pub fn tested_state(
    alloc: Global,
    components: &Components,
    variables: &[Variable],
    condition: &Condition,
) -> Result<Option<Picture>, Memory>
    requires given { IsNarrow (given_of condition.now) }
    requires shown { IsNarrow (shown_of condition.now) }
    ensures { IfOk result (λ o. IfSome o (IsRefuting condition.now)) }
{
    match refuting_state(alloc, components, variables, condition, MOST_PROBLEMS)? {
        Some(shown) => {
            let picture = Picture::of(alloc, &shown)?;
            Ok(if_refuting(picture, condition))
        }
        None => Ok(None),
    }
}
