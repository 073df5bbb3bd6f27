//! Whether a certificate is valid for the problem of a list.
//!
//! The recursion goes down the certificate. A node divides the problem into problems, which are numbers of lists; a leaf adds
//! up the picked rows or lines of the list.

ghost use Rattle.std.specs.Prelude.{◌↔◌, All, IfOk, IfSome, IsTrue, List, Option, map};
ghost use Rattle.st_certificate.specs.Plain.{plain as tree_of, plain_trees};
ghost use Rattle.farkas_check.specs.Problem.{Problem};
ghost use Rattle.farkas_check.specs.PlainProblem.{setting};
ghost use Rattle.farkas_check.specs.Limits.{AreLimited, IsLimited};
ghost use Rattle.farkas_check.specs.Valid.{AreValid, There, Valid};
ghost use Rattle.form_table.specs.Contents.{Grows, formulas_of};
ghost use Rattle.shared_search.specs.Books.{AreNumbered};
ghost use Rattle.shared_check.specs.Problems.{IsDivision, IsDivisionReady, IsReady, problem_of};

use crate::cases::by_case;
use crate::leaves::{farkas_closes, linear_sum_closes};
use crate::problems::{Division, Listed};
use crate::splits::{by_cut, by_split};
use crate::values::by_truth;
use control_states::Components;
use form_table::Table;
use shared_search::Decisions;
use st_certificate::Certificate;
use st_form::Variable;
use st_memory::Memory;
use std::alloc::Global;

/// Whether a certificate is valid for a problem. With `None` nothing is said.
#[cycle(closes)]
#[tactic(auto, using(st_certificate::proofs::Nodes::nodes))]
pub fn closes(
    alloc: Global,
    table: &mut Table,
    decisions: &Decisions,
    components: &Components,
    variables: &[Variable],
    certificate: &Certificate,
    problem: &Listed,
) -> Result<Option<bool>, Memory>
    requires limited { IsLimited (tree_of certificate.now) }
    requires numbered { AreNumbered (setting components.now variables.now) table.old.decisions decisions.now }
    requires ready { IsReady (setting components.now variables.now) (formulas_of table.old) problem.now }
    ensures grows { Grows table.old table.new }
    ensures exact { IfOk result (λ o. IfSome o (λ yes. IsTrue yes
        ↔ Valid (setting components.now variables.now) (tree_of certificate.now) (problem_of (formulas_of table.old) problem.now))) }
{
    if table.is_full() {
        return Ok(None);
    }
    match certificate {
        Certificate::Absurd => Ok(Some(problem.list.is_none())),
        Certificate::Case(component, parts) => {
            let division = by_case(
                alloc, table, decisions, components, variables, problem, *component,
            )?;
            close_all(
                alloc, table, decisions, components, variables, parts, division,
            )
        }
        Certificate::Bool(var, parts) => {
            let division = by_truth(
                alloc, table, decisions, components, variables, problem, *var,
            )?;
            close_all(
                alloc, table, decisions, components, variables, parts, division,
            )
        }
        Certificate::Split(k, parts) => {
            let division = by_split(alloc, table, components, variables, problem, *k)?;
            close_all(
                alloc, table, decisions, components, variables, parts, division,
            )
        }
        Certificate::Cut(f, parts) => {
            let division = by_cut(alloc, table, components, variables, problem, f)?;
            close_all(
                alloc, table, decisions, components, variables, parts, division,
            )
        }
        Certificate::Farkas(picks) => Ok(Some(farkas_closes(alloc, table, problem.list, picks)?)),
        Certificate::Linear(picks) => {
            let yes = linear_sum_closes(alloc, table, problem.list, picks.as_slice())?;
            Ok(Some(yes))
        }
    }
}

/// Whether there are as many certificates as problems, and each is valid for its own.
#[cycle(closes)]
fn close_all(
    alloc: Global,
    table: &mut Table,
    decisions: &Decisions,
    components: &Components,
    variables: &[Variable],
    certificates: &[Certificate],
    division: Division,
) -> Result<Option<bool>, Memory>
    requires limited { AreLimited (plain_trees certificates.now) }
    requires numbered { AreNumbered (setting components.now variables.now) table.old.decisions decisions.now }
    requires ready { IsDivisionReady (setting components.now variables.now) (formulas_of table.old) division }
    ensures grows { Grows table.old table.new }
    ensures exact { (d : Option (List Problem)) → IsDivision (setting components.now variables.now) (formulas_of table.old) division d
        → IfOk result (λ o. IfSome o (λ yes. IsTrue yes ↔ There d (AreValid (setting components.now variables.now) (plain_trees certificates.now)))) }
{
    match division {
        Division::Refused => Ok(Some(false)),
        Division::Into(problems) => close_each(
            alloc,
            table,
            decisions,
            components,
            variables,
            certificates,
            problems.as_slice(),
        ),
        Division::Unknown => Ok(None),
    }
}

#[cycle(closes)]
fn close_each(
    alloc: Global,
    table: &mut Table,
    decisions: &Decisions,
    components: &Components,
    variables: &[Variable],
    certificates: &[Certificate],
    problems: &[Listed],
) -> Result<Option<bool>, Memory>
    requires limited { AreLimited (plain_trees certificates.now) }
    requires numbered { AreNumbered (setting components.now variables.now) table.old.decisions decisions.now }
    requires ready { All (IsReady (setting components.now variables.now) (formulas_of table.old)) problems.now }
    ensures grows { Grows table.old table.new }
    ensures exact { IfOk result (λ o. IfSome o (λ yes. IsTrue yes
        ↔ AreValid (setting components.now variables.now) (plain_trees certificates.now) (map (problem_of (formulas_of table.old)) problems.now))) }
{
    if certificates.len() != problems.len() {
        return Ok(Some(false));
    }
    for (i, certificate) in certificates.iter().enumerate() {
        let Some(yes) = closes(
            alloc,
            table,
            decisions,
            components,
            variables,
            certificate,
            &problems[i],
        )?
        else {
            return Ok(None);
        };
        if !yes {
            return Ok(Some(false));
        }
    }
    Ok(Some(true))
}
