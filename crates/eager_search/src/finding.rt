//! The search for a certificate of a condition, and the check of what it finds; or for a state in which the condition is false.

ghost use Rattle.std.specs.Prelude.{IfOk, IfSome};
ghost use Rattle.st_form.specs.Shared.{given_of, shown_of};
ghost use Rattle.st_certificate.specs.Plain.{plain as tree_of};
ghost use Rattle.farkas_check.specs.PlainProblem.{setting};
ghost use Rattle.farkas_check.specs.Limits.{IsLimited, IsNarrow};
ghost use Rattle.farkas_check.specs.Valid.{IsCertificate};

use crate::certifying::certified;
use crate::guards::is_limited;
use crate::items::first_items;
use crate::plans::Plans;
use crate::search::{Node, Point, Search};
use crate::showing::shown_at;
use crate::stop::Stop;
use crate::walk::walk_first;
use control_states::Components;
use farkas_check::check;
use farkas_check::problems::{Posed, first_problem};
use search_verdicts::Shown;
use st_certificate::Certificate;
use st_form::{Condition, Form, Variable};
use st_memory::Memory;
use std::alloc::Global;

/// No certificate has more levels.
const MOST_LEVELS: u32 = 399;

/// At most so many cuts at a fraction are made one in the other.
const MOST_CUTS: u32 = 40;

/// What a search of a problem comes to: a certificate, of which it isn't known whether it is valid; a point at which it is true; or neither.
#[derive(Drop)]
enum Outcome {
    Closed(Certificate),
    True(Point),
    Neither,
}

/// The certificate of the plan that the search finds.
fn planned(alloc: Global, search: &mut Search, node: Node) -> Result<Certificate, Stop> {
    let found = walk_first(alloc, search, node, MOST_LEVELS)?;
    certified(alloc, search, node, found.plan, MOST_LEVELS)
}

/// What the search comes to where nothing closes the problem.
fn left_of(point: Option<Point>) -> Outcome {
    match point {
        Some(point) => Outcome::True(point),
        None => Outcome::Neither,
    }
}

/// What the search of a problem with these conjuncts comes to, looking at so many problems.
fn over_conjuncts(
    alloc: Global,
    components: &Components,
    variables: &[Variable],
    problem: &Posed,
    forms: &[Form],
    most: u32,
) -> Result<Outcome, Memory> {
    let mut search = Search {
        components,
        variables,
        plans: Plans::new(alloc),
        left: most,
        point: None,
    };
    let items = first_items(alloc, forms)?;
    let node = Node {
        cases: &problem.cases,
        truths: &problem.truths,
        items: &items,
        cuts: MOST_CUTS,
    };
    match planned(alloc, &mut search, node) {
        Ok(certificate) => Ok(Outcome::Closed(certificate)),
        Err(Stop::Unfound) => Ok(left_of(search.point.take())),
        Err(Stop::Memory) => Err(Memory),
    }
}

/// What the search of a problem comes to.
fn over_problem(
    alloc: Global,
    components: &Components,
    variables: &[Variable],
    problem: &Posed,
    most: u32,
) -> Result<Outcome, Memory> {
    match &problem.conjuncts {
        Some(forms) => over_conjuncts(alloc, components, variables, problem, forms, most),
        None => Ok(Outcome::Closed(Certificate::Absurd)),
    }
}

/// The certificate, if it is within the limits of certificates and valid.
fn if_valid(
    alloc: Global,
    components: &Components,
    variables: &[Variable],
    condition: &Condition,
    certificate: Certificate,
) -> Result<Option<Certificate>, Memory>
    requires given { IsNarrow (given_of condition.now) }
    requires shown { IsNarrow (shown_of condition.now) }
    ensures valid { IfOk result (λ o. IfSome o (λ c.
        IsCertificate (setting components.now variables.now) (given_of condition.now) (shown_of condition.now) (tree_of c))) }
    ensures limited { IfOk result (λ o. IfSome o (λ c. IsLimited (tree_of c))) }
{
    if !is_limited(&certificate) {
        return Ok(None);
    }
    if !check(alloc, components, variables, condition, &certificate)? {
        return Ok(None);
    }
    Ok(Some(certificate))
}

/// A certificate of a condition, if the search finds one within so many problems. It is valid and within the limits of certificates. The
/// condition's numbers are below 2^69 in size.
pub fn find(
    alloc: Global,
    components: &Components,
    variables: &[Variable],
    condition: &Condition,
    most: u32,
) -> Result<Option<Certificate>, Memory>
    requires given { IsNarrow (given_of condition.now) }
    requires shown { IsNarrow (shown_of condition.now) }
    ensures valid { IfOk result (λ o. IfSome o (λ c.
        IsCertificate (setting components.now variables.now) (given_of condition.now) (shown_of condition.now) (tree_of c))) }
    ensures limited { IfOk result (λ o. IfSome o (λ c. IsLimited (tree_of c))) }
{
    let problem = first_problem(alloc, components, variables, condition)?;
    match over_problem(alloc, components, variables, &problem, most)? {
        Outcome::Closed(certificate) => {
            if_valid(alloc, components, variables, condition, certificate)
        }
        Outcome::True(_) | Outcome::Neither => Ok(None),
    }
}

/// A state in which a condition is false, if the search comes to one within so many problems: what is given is true there, and what is to
/// be shown false. That it is so is for the caller to test. The condition's numbers are below 2^69 in size.
pub fn refuting_state(
    alloc: Global,
    components: &Components,
    variables: &[Variable],
    condition: &Condition,
    most: u32,
) -> Result<Option<Shown>, Memory>
    requires given { IsNarrow (given_of condition.now) }
    requires shown { IsNarrow (shown_of condition.now) }
{
    let problem = first_problem(alloc, components, variables, condition)?;
    match over_problem(alloc, components, variables, &problem, most)? {
        Outcome::True(point) => Ok(Some(shown_at(alloc, components, variables, &point)?)),
        Outcome::Closed(_) | Outcome::Neither => Ok(None),
    }
}
