//! Whether a certificate is valid for a problem.
//!
//! The recursion goes down the certificate. A node divides the problem into problems, each of them made, checked and
//! dropped before the next is made; a leaf adds up the picked rows or lines of the conjuncts.

ghost use Rattle.std.specs.Prelude.{◌<◌, ◌+◌, IfOk, length, map, take, drop, true, None, Some};
ghost use Rattle.st_form.specs.Plain.{plain_list};
ghost use Rattle.farkas_check.specs.Problem.{may_case, case_problems, in_place, split_problems, division};
ghost use Rattle.farkas_check.specs.PlainProblem.{plain_posed, plain_division, setting};
ghost use Rattle.farkas_check.specs.Limits.{AreFit, DivisionFits, IsLimited, AreLimited, AllFit, AreSettled};
ghost use Rattle.st_certificate.specs.Plain.{plain as tree_of, plain_trees};
ghost use Rattle.st_certificate.specs.Tree.{by_case, by_split};
ghost use Rattle.farkas_check.specs.Valid.{There, Valid, AreValid};
ghost use Rattle.std.specs.Prelude.{IsTrue, ◌↔◌};

use crate::decisions::may_case;
use crate::division::{case_problem, divided_by_cut, divided_by_truth};
use crate::leaves::{farkas_closes, linear_sum_closes};
use crate::problems::Posed;
use crate::splits::{find_disjunction, split_problem};
use control_states::{Alternative, Components, alternatives_at};
use st_certificate::Certificate;
use st_form::{Form, Variable};
use st_memory::Memory;
use std::alloc::Global;

/// Whether a certificate is valid for a problem.
#[cycle(closes)]
#[tactic(auto, using(st_certificate::proofs::Nodes::nodes))]
pub fn closes(
    alloc: Global,
    components: &Components,
    variables: &[Variable],
    certificate: &Certificate,
    problem: &Posed,
) -> Result<bool, Memory>
    requires limited { IsLimited (tree_of certificate.now) }
    requires fit { AreFit (plain_posed problem.now).conjuncts }
    ensures { IfOk result (λ yes. IsTrue yes ↔ Valid (setting components.now variables.now) (tree_of certificate.now) (plain_posed problem.now)) }
{
    match certificate {
        Certificate::Absurd => Ok(problem.conjuncts.is_none()),
        Certificate::Case(component, parts) => close_cases(
            alloc, components, variables, parts, problem, *component,
        ),
        Certificate::Bool(var, parts) => {
            let problems = divided_by_truth(alloc, components, variables, problem, *var)?;
            close_all(alloc, components, variables, parts, problems)
        }
        Certificate::Split(k, parts) => close_split(
            alloc, components, variables, parts, problem, *k,
        ),
        Certificate::Cut(f, parts) => {
            let problems = divided_by_cut(alloc, variables, problem, f)?;
            close_all(alloc, components, variables, parts, problems)
        }
        Certificate::Farkas(picks) => farkas_closes(alloc, problem, picks.as_slice()),
        Certificate::Linear(picks) => linear_sum_closes(alloc, problem, picks.as_slice()),
    }
}

/// Whether each certificate is valid for its alternative of a component.
#[cycle(closes)]
fn close_cases(
    alloc: Global,
    components: &Components,
    variables: &[Variable],
    certificates: &[Certificate],
    problem: &Posed,
    component: u32,
) -> Result<bool, Memory>
    requires limited { AreLimited (plain_trees certificates.now) }
    requires fit { AreFit (plain_posed problem.now).conjuncts }
    ensures { IfOk result (λ yes. IsTrue yes ↔ There (division (setting components.now variables.now) (plain_posed problem.now) (by_case component))
        (AreValid (setting components.now variables.now) (plain_trees certificates.now))) }
{
    match &problem.conjuncts {
        None => Ok(false),
        Some(fs) => {
            if !may_case(components, problem.cases.as_slice(), component) {
                return Ok(false);
            }
            let alternatives = alternatives_at(components.parts(), component);
            close_each_case(
                alloc,
                components,
                variables,
                certificates,
                problem,
                fs.as_slice(),
                component,
                alternatives,
            )
        }
    }
}

#[cycle(closes)]
fn close_each_case(
    alloc: Global,
    components: &Components,
    variables: &[Variable],
    certificates: &[Certificate],
    problem: &Posed,
    fs: &[Form],
    component: u32,
    alternatives: &[Alternative],
) -> Result<bool, Memory>
    requires limited { AreLimited (plain_trees certificates.now) }
    requires settled { AreSettled (plain_list fs.now) }
    requires there { component < length problem.now.cases.items }
    ensures { IfOk result (λ yes. IsTrue yes ↔ AreValid (setting components.now variables.now) (plain_trees certificates.now)
        (case_problems components.now (plain_posed problem.now) (plain_list fs.now) component alternatives.now)) }
{
    if certificates.len() != alternatives.len() {
        return Ok(false);
    }
    for (i, certificate) in certificates.iter().enumerate() {
        let next = case_problem(alloc, components, problem, fs, component, alternatives[i])?;
        if !closes(alloc, components, variables, certificate, &next)? {
            return Ok(false);
        }
    }
    Ok(true)
}

/// Whether each certificate is valid for its disjunct of a disjunction.
#[cycle(closes)]
fn close_split(
    alloc: Global,
    components: &Components,
    variables: &[Variable],
    certificates: &[Certificate],
    problem: &Posed,
    k: u32,
) -> Result<bool, Memory>
    requires limited { AreLimited (plain_trees certificates.now) }
    requires fit { AreFit (plain_posed problem.now).conjuncts }
    ensures { IfOk result (λ yes. IsTrue yes ↔ There (division (setting components.now variables.now) (plain_posed problem.now) (by_split k))
        (AreValid (setting components.now variables.now) (plain_trees certificates.now))) }
{
    match &problem.conjuncts {
        None => Ok(false),
        Some(fs) => match find_disjunction(fs.as_slice(), k) {
            None => Ok(false),
            Some((place, disjuncts)) => close_each_disjunct(
                alloc,
                components,
                variables,
                certificates,
                problem,
                fs.as_slice(),
                place,
                disjuncts,
            ),
        },
    }
}

#[cycle(closes)]
fn close_each_disjunct(
    alloc: Global,
    components: &Components,
    variables: &[Variable],
    certificates: &[Certificate],
    problem: &Posed,
    fs: &[Form],
    place: usize,
    disjuncts: &[Form],
) -> Result<bool, Memory>
    requires limited { AreLimited (plain_trees certificates.now) }
    requires settled { AreSettled (plain_list fs.now) }
    requires parts { AreSettled (plain_list disjuncts.now) }
    requires there { place < length fs.now }
    ensures { IfOk result (λ yes. IsTrue yes ↔ AreValid (setting components.now variables.now) (plain_trees certificates.now)
        (split_problems (plain_posed problem.now) (in_place (plain_list (take place fs.now)) (plain_list disjuncts.now) (plain_list (drop (place + 1) fs.now))))) }
{
    if certificates.len() != disjuncts.len() {
        return Ok(false);
    }
    for (i, certificate) in certificates.iter().enumerate() {
        let next = split_problem(alloc, problem, fs, place, &disjuncts[i])?;
        if !closes(alloc, components, variables, certificate, &next)? {
            return Ok(false);
        }
    }
    Ok(true)
}

/// Whether there are as many certificates as problems, and each is valid for its own.
#[cycle(closes)]
fn close_all(
    alloc: Global,
    components: &Components,
    variables: &[Variable],
    certificates: &[Certificate],
    problems: Option<Vec<Posed>>,
) -> Result<bool, Memory>
    requires limited { AreLimited (plain_trees certificates.now) }
    requires fit { DivisionFits (plain_division problems) }
    ensures { IfOk result (λ yes. IsTrue yes ↔ There (plain_division problems) (AreValid (setting components.now variables.now) (plain_trees certificates.now))) }
{
    match problems {
        None => Ok(false),
        Some(problems) => close_each(
            alloc,
            components,
            variables,
            certificates,
            problems.as_slice(),
        ),
    }
}

#[cycle(closes)]
fn close_each(
    alloc: Global,
    components: &Components,
    variables: &[Variable],
    certificates: &[Certificate],
    problems: &[Posed],
) -> Result<bool, Memory>
    requires limited { AreLimited (plain_trees certificates.now) }
    requires fit { AllFit (map plain_posed problems.now) }
    ensures { IfOk result (λ yes. IsTrue yes ↔ AreValid (setting components.now variables.now) (plain_trees certificates.now) (map plain_posed problems.now)) }
{
    if certificates.len() != problems.len() {
        return Ok(false);
    }
    for (i, certificate) in certificates.iter().enumerate() {
        if !closes(alloc, components, variables, certificate, &problems[i])? {
            return Ok(false);
        }
    }
    Ok(true)
}
