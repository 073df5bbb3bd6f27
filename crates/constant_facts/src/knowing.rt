//! What is known of a value before a step, from the facts at the locations where control is: a constant is itself, and a variable
//! that some fact gives a value has it. Anything else isn't known, so that no arithmetic is needed.

ghost use Rattle.std.specs.Prelude.{◌≡◌, IfOk, map};
ghost use Rattle.std.specs.Option.{option_map};
ghost use Rattle.st_linear.specs.Linear.{form_for};
ghost use Rattle.st_form.specs.Exchange.{is_listed, truth_for};
ghost use Rattle.st_form.specs.Plain.{plain, plain_change};
ghost use Rattle.constant_facts.specs.Rules.{is_truth, is_same, knows, known_at, entries_are, form_is, formula_is, number_is, gives, changes};

use crate::fact::{Constant, Fact};
use st_form::{Change, Form};
use st_linear::Lin;
use st_memory::Memory;
use std::alloc::Global;

/// Whether a truth value is another.
fn is_truth(one: bool, other: bool) -> bool
    ensures { result ≡ is_truth one other }
{
    if one { other } else { !other }
}

/// Whether two constants are the same.
fn is_same(one: &Constant, other: &Constant) -> bool
    ensures { result ≡ is_same one.now other.now }
{
    match one {
        Constant::Number(y) => match other {
            Constant::Number(z) => *y == *z,
            Constant::Truth(_) => false,
        },
        Constant::Truth(a) => match other {
            Constant::Number(_) => false,
            Constant::Truth(b) => is_truth(*a, *b),
        },
    }
}

/// Whether one of the facts says that the variable has the value.
pub(crate) fn knows(facts: &[Fact], variable: u32, value: &Constant) -> bool
    ensures { result ≡ knows facts.now variable value.now }
{
    for fact in facts {
        if fact.variable == variable && is_same(&fact.value, value) {
            return true;
        }
    }
    false
}

/// Whether the location is one of these.
pub(crate) fn is_listed(location: u32, locations: &[u32]) -> bool
    ensures { result ≡ is_listed location locations.now }
{
    for l in locations {
        if *l == location {
            return true;
        }
    }
    false
}

/// The facts of these locations.
pub(crate) fn known_at(alloc: Global, places: &[u32], facts: &[Fact]) -> Result<Vec<Fact>, Memory>
    ensures { IfOk result (λ v. v.items ≡ known_at places.now facts.now) }
{
    let mut out = Vec::new(alloc);
    for fact in facts {
        if is_listed(fact.place, places) {
            out.push(*fact)?;
        }
    }
    Ok(out)
}

/// Whether a form is a number, or a variable that is known to be this number.
fn form_is(known: &[Fact], form: &Lin, number: &i128) -> bool
    ensures { result ≡ form_is known.now form.now number.now }
{
    match form.entries() {
        [] => form.constant() == *number,
        [entry] => {
            form.constant() == 0
                && entry.1 == 1
                && knows(known, entry.0, &Constant::Number(*number))
        }
        _ => false,
    }
}

/// Whether a formula is a truth value, or a variable that is known to have it, or denies such a formula.
#[cycle(known_formula)]
#[tactic(auto, using(st_form::proofs::Nodes::nodes))]
fn formula_is(known: &[Fact], form: &Form, truth: bool) -> bool
    ensures { result ≡ formula_is known.now (plain form.now) truth }
{
    match form {
        Form::True => is_truth(true, truth),
        Form::False => is_truth(false, truth),
        Form::BoolVar(v) => knows(known, *v, &Constant::Truth(truth)),
        Form::Not(f) => formula_is(known, f, !truth),
        Form::Row(_) | Form::Equal(_) | Form::At(_) | Form::And(_) | Form::Or(_) => false,
    }
}

/// Whether the variable is this number behind a change.
fn number_is(known: &[Fact], numbers: &[(u32, Lin)], variable: u32, number: &i128) -> bool
    ensures { result ≡ number_is known.now (form_for variable numbers.now) variable number.now }
{
    for pair in numbers {
        if pair.0 == variable {
            return form_is(known, &pair.1, number);
        }
    }
    knows(known, variable, &Constant::Number(*number))
}

/// Whether the variable has this truth value behind a change.
fn truth_is(known: &[Fact], truths: &[(u32, Form)], variable: u32, truth: bool) -> bool
    ensures { result ≡ formula_is known.now (truth_for variable (map (λ p. (p.0, plain p.1)) truths.now)) truth }
{
    for pair in truths {
        if pair.0 == variable {
            return formula_is(known, &pair.1, truth);
        }
    }
    knows(known, variable, &Constant::Truth(truth))
}

/// Whether the variable has the value behind the change.
pub(crate) fn gives(known: &[Fact], change: &Change, variable: u32, value: &Constant) -> bool
    ensures { result ≡ gives known.now (plain_change change.now) variable value.now }
{
    match value {
        Constant::Number(z) => number_is(known, &change.numbers, variable, z),
        Constant::Truth(b) => truth_is(known, &change.truths, variable, *b),
    }
}
