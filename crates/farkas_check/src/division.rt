//! Dividing a problem: by the alternatives of a component, by the values of a boolean variable, or by the two sides of
//! a cut. Each division covers every state that meets the problem.

ghost use Rattle.std.specs.Prelude.{◌≡◌, ◌<◌, ◌^◌, IfOk, length, map, slice_set, true, None, Some, unsigned_abs, [], ◌∷◌};
ghost use Rattle.st_form.specs.Plain.{plain_list};
ghost use Rattle.farkas_check.specs.Problem.{posed, has_truth, truth_problem, are_integers, cut_problem, truth_division, cut_division, with_conjuncts};
ghost use Rattle.farkas_check.specs.PlainProblem.{plain_posed, plain_division};
ghost use Rattle.farkas_check.specs.Limits.{IsSlight, AreFit, DivisionFits, AreSettled};
ghost use Rattle.st_certificate.specs.Tree.{by_truth, by_cut};
ghost use Rattle.std.specs.Prelude.{option_and_then};

use crate::decisions::{are_integers, has_truth, truth_free};
use crate::problems::{Posed, pose, with_conjuncts};
use control_states::{Alternative, Components};
use st_form::{Form, Variable, joined_conjuncts};
use st_linear::Lin;
use st_memory::Memory;
use std::alloc::Global;

/// The problem with a component decided.
pub fn case_problem(
    alloc: Global,
    components: &Components,
    problem: &Posed,
    fs: &[Form],
    component: u32,
    to: Alternative,
) -> Result<Posed, Memory>
    requires settled { AreSettled (plain_list fs.now) }
    requires there { component < length problem.now.cases.items }
    ensures exact { IfOk result (λ p. plain_posed p
        ≡ posed components.now (slice_set problem.now.cases.items component (Some to)) problem.now.truths.items (plain_list fs.now)) }
    ensures fit { IfOk result (λ p. AreFit (plain_posed p).conjuncts) }
{
    let mut cases = Vec::from_slice(alloc, problem.cases.as_slice())?;
    cases[component as usize] = Some(to);
    let truths = Vec::from_slice(alloc, problem.truths.as_slice())?;
    pose(alloc, components, cases, truths, fs)
}

/// The problem with a boolean variable decided.
pub fn truth_problem(
    alloc: Global,
    components: &Components,
    problem: &Posed,
    fs: &[Form],
    var: u32,
    to: bool,
) -> Result<Posed, Memory>
    requires settled { AreSettled (plain_list fs.now) }
    requires there { var < length problem.now.truths.items }
    ensures { IfOk result (λ p. plain_posed p ≡ truth_problem components.now (plain_posed problem.now) (plain_list fs.now) var to) }
{
    let cases = Vec::from_slice(alloc, problem.cases.as_slice())?;
    let mut truths = Vec::from_slice(alloc, problem.truths.as_slice())?;
    truths[var as usize] = Some(to);
    pose(alloc, components, cases, truths, fs)
}

pub fn pair(alloc: Global, first: Posed, second: Posed) -> Result<Vec<Posed>, Memory>
    ensures { IfOk result (λ v. map plain_posed v.items ≡ map plain_posed (first ∷ second ∷ [])) }
{
    let mut out = Vec::new(alloc);
    out.push(first)?;
    out.push(second)?;
    Ok(out)
}

/// The problems for both values of a boolean variable.
pub fn by_truth(
    alloc: Global,
    components: &Components,
    variables: &[Variable],
    problem: &Posed,
    fs: &[Form],
    var: u32,
) -> Result<Option<Vec<Posed>>, Memory>
    requires { AreSettled (plain_list fs.now) }
    ensures { IfOk result (λ o. plain_division o ≡ truth_division components.now variables.now (plain_posed problem.now) (plain_list fs.now) var) }
{
    if !(has_truth(variables, var) && truth_free(problem.truths.as_slice(), var)) {
        return Ok(None);
    }
    let first = truth_problem(alloc, components, problem, fs, var, true)?;
    let second = truth_problem(alloc, components, problem, fs, var, false)?;
    Ok(Some(pair(alloc, first, second)?))
}

/// The conjuncts with a simplified row at their end.
pub fn cut_problem(alloc: Global, problem: &Posed, fs: &[Form], f: &Lin) -> Result<Posed, Memory>
    requires { unsigned_abs f.now.constant < 2 ^ 99 }
    ensures { IfOk result (λ p. plain_posed p ≡ cut_problem (plain_posed problem.now) (plain_list fs.now) f.now) }
{
    let row = Form::Row(f.copy(alloc)?).normal(alloc)?;
    let conjuncts = joined_conjuncts(alloc, fs, row)?;
    with_conjuncts(alloc, problem, conjuncts)
}

/// The problems for both sides of a cut.
pub fn by_cut(
    alloc: Global,
    variables: &[Variable],
    problem: &Posed,
    fs: &[Form],
    f: &Lin,
) -> Result<Option<Vec<Posed>>, Memory>
    requires { IsSlight f.now }
    ensures { IfOk result (λ o. plain_division o ≡ cut_division variables.now (plain_posed problem.now) (plain_list fs.now) f.now) }
{
    if !are_integers(variables, f.entries()) {
        return Ok(None);
    }
    let first = cut_problem(alloc, problem, fs, f)?;
    let second = cut_problem(alloc, problem, fs, &f.complement(alloc)?)?;
    Ok(Some(pair(alloc, first, second)?))
}

pub fn divided_by_truth(
    alloc: Global,
    components: &Components,
    variables: &[Variable],
    problem: &Posed,
    var: u32,
) -> Result<Option<Vec<Posed>>, Memory>
    requires { AreFit (plain_posed problem.now).conjuncts }
    ensures exact { IfOk result (λ o. plain_division o ≡ option_and_then (λ fs. truth_division components.now variables.now (plain_posed problem.now) fs var) (plain_posed problem.now).conjuncts) }
    ensures fit { IfOk result (λ o. DivisionFits (plain_division o)) }
{
    match &problem.conjuncts {
        None => Ok(None),
        Some(fs) => by_truth(alloc, components, variables, problem, fs.as_slice(), var),
    }
}

pub fn divided_by_cut(
    alloc: Global,
    variables: &[Variable],
    problem: &Posed,
    f: &Lin,
) -> Result<Option<Vec<Posed>>, Memory>
    requires fit { AreFit (plain_posed problem.now).conjuncts }
    requires slight { IsSlight f.now }
    ensures exact { IfOk result (λ o. plain_division o ≡ option_and_then (λ fs. cut_division variables.now (plain_posed problem.now) fs f.now) (plain_posed problem.now).conjuncts) }
    ensures fit { IfOk result (λ o. DivisionFits (plain_division o)) }
{
    match &problem.conjuncts {
        None => Ok(None),
        Some(fs) => by_cut(alloc, variables, problem, fs.as_slice(), f),
    }
}
