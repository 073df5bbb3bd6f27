//! The state that is shown with an open problem. Decided components and boolean variables are as decided; an undecided
//! component that is active has its first alternative; an undecided boolean variable is false; integer variables have the
//! values of the trial point.

ghost use Rattle.std.specs.Prelude.{◌≡◌, ◌<◌, ◌^◌, ℕ, Bool, length, IfOk, slice_index_or, None, false, unwrap_or, []};
ghost use Rattle.st_linear.specs.Linear.{valuation};
ghost use Rattle.farkas_check.specs.PlainProblem.{setting};
ghost use Rattle.search_laws.specs.States.{taken, next_standing, standing_from, listed, value_of, values_of, state_of};
ghost use Rattle.linear_prover.specs.Plain.{plain_node};
ghost use Rattle.search_verdicts.specs.Plain.{plain_shown};
ghost use Rattle.linear_prover.specs.Loops.{valued};

use crate::problems::Node;
use control_states::{Alternative, Component, Components};
use farkas_check::decisions::known_active;
use search_verdicts::Shown;
use st_form::Variable;
use st_memory::Memory;
use st_program::Datum;
use std::alloc::Global;

/// What is decided of a component.
fn case_at(cases: &[Option<Alternative>], component: usize) -> Option<Alternative>
    ensures { result ≡ slice_index_or cases.now component None }
{
    match cases.get(component) {
        Some(case) => *case,
        None => None,
    }
}

/// As decided, or the first alternative.
fn taken(case: Option<Alternative>, choices: &[Alternative]) -> Option<Alternative>
    ensures { result ≡ taken case choices.now }
{
    match case {
        Some(alternative) => Some(alternative),
        None => choices.first().copied(),
    }
}

/// What a component is at, where it is active by the components before it.
fn next_standing(
    cases: &[Option<Alternative>],
    before: &[Option<Alternative>],
    part: &Component,
) -> Option<Alternative>
    ensures { result ≡ next_standing cases.now before.now part.now }
{
    if known_active(before, part.around()) {
        taken(case_at(cases, before.len()), part.alternatives())
    } else {
        None
    }
}

/// What each component is at, where it is active.
fn standing(
    alloc: Global,
    cases: &[Option<Alternative>],
    parts: &[Component],
) -> Result<Vec<Option<Alternative>>, Memory>
    ensures exact { IfOk result (λ v. v.items ≡ standing_from cases.now [] parts.now) }
    ensures same { IfOk result (λ v. length v.items ≡ length parts.now) }
{
    let mut stood = Vec::with_capacity(alloc, parts.len())?;
    for part in parts {
        let next = next_standing(cases, stood.as_slice(), part);
        stood.push(next)?;
    }
    Ok(stood)
}

/// The components that are at something, by rising number.
fn listed(alloc: Global, stood: &[Option<Alternative>]) -> Result<Vec<(u32, Alternative)>, Memory>
    requires { length stood.now < 2 ^ 32 }
    ensures { IfOk result (λ v. v.items ≡ listed 0 stood.now) }
{
    let mut out = Vec::new(alloc);
    for (c, at) in stood.iter().enumerate() {
        if let Some(alternative) = at {
            out.push((c as u32, *alternative))?;
        }
    }
    Ok(out)
}

fn truth_at(truths: &[Option<bool>], var: usize) -> bool
    ensures { result ≡ unwrap_or (slice_index_or truths.now var None) false }
{
    match truths.get(var) {
        Some(Some(truth)) => *truth,
        Some(None) => false,
        None => false,
    }
}

fn number_at(point: &[i128], var: usize) -> i128
    ensures { result ≡ valuation point.now var }
{
    match point.get(var) {
        Some(number) => *number,
        None => 0,
    }
}

fn value(variable: Variable, truths: &[Option<bool>], point: &[i128], var: usize) -> Datum
    ensures { (located : ℕ → Bool) → result ≡ value_of variable var (valued truths.now point.now located) }
{
    if variable.truth {
        Datum::Truth(truth_at(truths, var))
    } else {
        Datum::Number(number_at(point, var))
    }
}

/// The values of the variables: decided or false, and the trial point's.
fn values(
    alloc: Global,
    variables: &[Variable],
    truths: &[Option<bool>],
    point: &[i128],
) -> Result<Vec<Datum>, Memory>
    ensures { IfOk result (λ v. (located : ℕ → Bool) → v.items ≡ values_of variables.now 0 (valued truths.now point.now located)) }
{
    let mut store = Vec::with_capacity(alloc, variables.len())?;
    for (v, variable) in variables.iter().enumerate() {
        store.push(value(*variable, truths, point, v))?;
    }
    Ok(store)
}

/// The state of a problem at the trial point.
pub fn state(
    alloc: Global,
    components: &Components,
    variables: &[Variable],
    node: &Node,
    point: &[i128],
) -> Result<Shown, Memory>
    ensures { IfOk result (λ s. plain_shown s ≡ state_of (setting components.now variables.now) (plain_node node.now) point.now) }
{
    let _count = components.count();
    let stood = standing(alloc, node.cases.as_slice(), components.parts())?;
    let control = listed(alloc, stood.as_slice())?;
    let store = values(alloc, variables, node.truths.as_slice(), point)?;
    Ok(Shown { control, store })
}
