//! From a plan to a certificate: the problems that the plan divides into are made again, and what it names is counted in them.

use crate::cutting::{side_items, side_row};
use crate::deciding::{Decided, with_case, with_truth};
use crate::items::Item;
use crate::looking::line_of;
use crate::plans::{Plan, Step};
use crate::search::{Node, Search};
use crate::splitting::split_items;
use crate::stop::Stop;
use farkas_check::splits::disjuncts;
use st_certificate::Certificate;
use st_linear::Lin;
use st_memory::Memory;
use std::alloc::Global;

/// Picks of lines by name, which stand in the order of the conjuncts, as picks of lines by number.
fn by_number(
    alloc: Global,
    items: &[Item],
    picks: &[(u64, i64)],
) -> Result<Vec<(u32, i64)>, Memory> {
    let mut out = Vec::with_capacity(alloc, picks.len())?;
    let mut left = picks.iter();
    let mut next = left.next();
    let mut line: u32 = 0;
    for item in items {
        if line_of(item.form).is_some() {
            if let Some(pick) = next
                && pick.0 == item.name
            {
                out.push((line, pick.1))?;
                next = left.next();
            }
            line = line.saturating_add(1);
        }
    }
    Ok(out)
}

/// The place of the disjunction with a name among the conjuncts, and its number among the disjunctions.
fn disjunction(items: &[Item], name: u64) -> Option<(usize, u32)> {
    let mut number: u32 = 0;
    for (place, item) in items.iter().enumerate() {
        if disjuncts(item.form).is_some() {
            if item.name == name {
                return Some((place, number));
            }
            number = number.saturating_add(1);
        }
    }
    None
}

/// The certificate of a plan for a problem.
#[cycle(certify)]
pub(crate) fn certified(
    alloc: Global,
    search: &Search,
    node: Node,
    plan: usize,
    levels: u32,
) -> Result<Certificate, Stop> {
    if levels == 0 {
        return Err(Stop::Unfound);
    }
    match search.plans.plan(plan) {
        None => Err(Stop::Unfound),
        Some(Plan::Absurd) => Ok(Certificate::Absurd),
        Some(Plan::Linear(picks)) => Ok(Certificate::Linear(by_number(alloc, node.items, picks)?)),
        Some(Plan::Branch(step, parts)) => divided(alloc, search, node, *step, parts, levels - 1),
    }
}

#[cycle(certify)]
fn divided(
    alloc: Global,
    search: &Search,
    node: Node,
    step: Step,
    parts: &[usize],
    levels: u32,
) -> Result<Certificate, Stop> {
    match step {
        Step::Case(component) => {
            let certificates = of_cases(alloc, search, node, component, parts, levels)?;
            Ok(Certificate::Case(component, certificates))
        }
        Step::Truth(var) => {
            let certificates = of_truths(alloc, search, node, var, parts, levels)?;
            Ok(Certificate::Bool(var, certificates))
        }
        Step::Split(name) => {
            let Some((place, number)) = disjunction(node.items, name) else {
                return Err(Stop::Unfound);
            };
            let certificates = of_parts(alloc, search, node, place, parts, levels)?;
            Ok(Certificate::Split(number, certificates))
        }
        Step::Cut(number) => {
            let Some(form) = search.plans.cut_form(number) else {
                return Err(Stop::Unfound);
            };
            let certificates = of_sides(alloc, search, node, form, parts, levels)?;
            let form = Box::new(alloc, form.copy(alloc)?)?;
            Ok(Certificate::Cut(form, certificates))
        }
    }
}

#[cycle(certify)]
fn of_cases(
    alloc: Global,
    search: &Search,
    node: Node,
    component: u32,
    parts: &[usize],
    levels: u32,
) -> Result<Vec<Certificate>, Stop> {
    let mut out = Vec::with_capacity(alloc, parts.len())?;
    let choices = search.components.alternatives(component);
    for (choice, part) in choices.iter().zip(parts) {
        let decided = with_case(alloc, search, node, component, *choice)?;
        let certificate = under(alloc, search, node, &decided, *part, levels)?;
        out.push(certificate)?;
    }
    Ok(out)
}

#[cycle(certify)]
fn of_truths(
    alloc: Global,
    search: &Search,
    node: Node,
    var: u32,
    parts: &[usize],
    levels: u32,
) -> Result<Vec<Certificate>, Stop> {
    let mut out = Vec::with_capacity(alloc, parts.len())?;
    for (to, part) in [true, false].iter().zip(parts) {
        let decided = with_truth(alloc, search, node, var, *to)?;
        let certificate = under(alloc, search, node, &decided, *part, levels)?;
        out.push(certificate)?;
    }
    Ok(out)
}

/// The certificate of a plan under a decision.
#[cycle(certify)]
fn under(
    alloc: Global,
    search: &Search,
    node: Node,
    decided: &Decided,
    plan: usize,
    levels: u32,
) -> Result<Certificate, Stop> {
    if decided.refuted().is_some() {
        return Ok(Certificate::Absurd);
    }
    let items = decided.items(alloc, node.items)?;
    let below = Node {
        cases: &decided.cases,
        truths: &decided.truths,
        items: &items,
        cuts: node.cuts,
    };
    certified(alloc, search, below, plan, levels)
}

#[cycle(certify)]
fn of_parts(
    alloc: Global,
    search: &Search,
    node: Node,
    place: usize,
    parts: &[usize],
    levels: u32,
) -> Result<Vec<Certificate>, Stop> {
    let mut out = Vec::with_capacity(alloc, parts.len())?;
    let Some(item) = node.items.get(place) else {
        return Err(Stop::Unfound);
    };
    let Some(disjuncts) = disjuncts(item.form) else {
        return Err(Stop::Unfound);
    };
    for (k, (disjunct, part)) in disjuncts.iter().zip(parts).enumerate() {
        let items = split_items(alloc, node.items, place, k, disjunct)?;
        let below = Node {
            items: &items,
            ..node
        };
        let certificate = certified(alloc, search, below, *part, levels)?;
        out.push(certificate)?;
    }
    Ok(out)
}

#[cycle(certify)]
fn of_sides(
    alloc: Global,
    search: &Search,
    node: Node,
    form: &Lin,
    parts: &[usize],
    levels: u32,
) -> Result<Vec<Certificate>, Stop> {
    let mut out = Vec::with_capacity(alloc, parts.len())?;
    for (plus, part) in [true, false].iter().zip(parts) {
        let row = side_row(alloc, form, *plus)?;
        let items = side_items(alloc, node.items, form, &row, *plus)?;
        let below = Node {
            items: &items,
            ..node
        };
        let certificate = certified(alloc, search, below, *part, levels)?;
        out.push(certificate)?;
    }
    Ok(out)
}
