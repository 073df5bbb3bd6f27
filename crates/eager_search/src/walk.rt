//! The walk over problems, depth first. A problem that nothing closes ends the whole search.
//!
//! Where the plan of a part of a division doesn't use what the division made, it is a plan of the divided problem too: the other parts
//! needn't be looked at, and the division is left out.

use crate::carrying::{carried, join, mark, unused};
use crate::choosing::{Move, choose};
use crate::cutting::{side_items, side_row};
use crate::deciding::{Decided, with_case, with_truth};
use crate::items::Item;
use crate::literals::Literal;
use crate::looking::look;
use crate::plans::Step;
use crate::search::{Branch, Found, Node, Search};
use crate::solving::{Solved, solve};
use crate::splitting::split_items;
use crate::stop::Stop;
use control_states::Alternative;
use farkas_check::decisions::{has_truth, may_case, truth_free};
use farkas_check::splits::disjuncts;
use shared_search::component_for;
use st_form::Form;
use st_linear::Lin;
use std::alloc::Global;

/// A plan of a problem, with so many levels left.
#[cycle(walk)]
pub(crate) fn walk(
    alloc: Global,
    search: &mut Search,
    node: Node,
    levels: u32,
) -> Result<Found, Stop> {
    if levels == 0 || search.left == 0 {
        return Err(Stop::Unfound);
    }
    search.left -= 1;
    if let Some(found) = look(alloc, search, node.items)? {
        return Ok(found);
    }
    match choose(alloc, search.width(), node.items)? {
        Move::Decide(Literal::Location(location)) => walk_place(
            alloc,
            search,
            node,
            location,
            levels - 1,
        ),
        Move::Decide(Literal::Truth(var)) => walk_truths(alloc, search, node, var, levels - 1),
        Move::Split(place) => walk_parts(alloc, search, node, place, levels - 1),
        Move::Solve => walk_lines(alloc, search, node, levels - 1),
    }
}

/// Whether other components stand inside a component. Its decision is never left out, since theirs hang on it.
fn has_inside(search: &Search, component: u32) -> bool {
    for part in search.components.parts() {
        if let Some(around) = part.around()
            && around.0 == component
        {
            return true;
        }
    }
    false
}

/// The component that a location asks for is decided.
#[cycle(walk)]
fn walk_place(
    alloc: Global,
    search: &mut Search,
    node: Node,
    location: u32,
    levels: u32,
) -> Result<Found, Stop> {
    match component_for(search.components, node.cases, location) {
        Some(component) => {
            if !may_case(search.components, node.cases, component) {
                return Err(Stop::Unfound);
            }
            walk_cases(alloc, search, node, component, levels)
        }
        None => Err(Stop::Unfound),
    }
}

/// A component is decided.
#[cycle(walk)]
fn walk_cases(
    alloc: Global,
    search: &mut Search,
    node: Node,
    component: u32,
    levels: u32,
) -> Result<Found, Stop> {
    let components = search.components;
    let choices = components.alternatives(component);
    let inside = has_inside(search, component);
    let mut used = unused(alloc, node.items.len())?;
    let mut plans = Vec::with_capacity(alloc, choices.len())?;
    for choice in choices {
        let branch = case_branch(alloc, search, node, component, *choice, levels)?;
        if !branch.needs_division && !inside {
            return Ok(alone(branch));
        }
        join(&mut used, &branch.used);
        plans.push(branch.plan)?;
    }
    let plan = search.plans.branch(Step::Case(component), plans)?;
    Ok(Found { plan, used })
}

/// The plan of a part as one of the divided problem.
fn alone(branch: Branch) -> Found {
    Found {
        plan: branch.plan,
        used: branch.used,
    }
}

#[cycle(walk)]
fn case_branch(
    alloc: Global,
    search: &mut Search,
    node: Node,
    component: u32,
    choice: Alternative,
    levels: u32,
) -> Result<Branch, Stop> {
    let decided = with_case(alloc, search, node, component, choice)?;
    walk_decided(alloc, search, node, &decided, levels)
}

/// A boolean variable is decided.
#[cycle(walk)]
fn walk_truths(
    alloc: Global,
    search: &mut Search,
    node: Node,
    var: u32,
    levels: u32,
) -> Result<Found, Stop> {
    if !has_truth(search.variables, var) || !truth_free(node.truths, var) {
        return Err(Stop::Unfound);
    }
    let first = truth_branch(alloc, search, node, var, true, levels)?;
    if !first.needs_division {
        return Ok(alone(first));
    }
    let second = truth_branch(alloc, search, node, var, false, levels)?;
    if !second.needs_division {
        return Ok(alone(second));
    }
    both(alloc, search, Step::Truth(var), first, &second)
}

/// The plan of a division into two parts.
fn both(
    alloc: Global,
    search: &mut Search,
    step: Step,
    first: Branch,
    second: &Branch,
) -> Result<Found, Stop> {
    let mut used = first.used;
    join(&mut used, &second.used);
    let plans = vec![in alloc; first.plan, second.plan]?;
    let plan = search.plans.branch(step, plans)?;
    Ok(Found { plan, used })
}

#[cycle(walk)]
fn truth_branch(
    alloc: Global,
    search: &mut Search,
    node: Node,
    var: u32,
    to: bool,
    levels: u32,
) -> Result<Branch, Stop> {
    let decided = with_truth(alloc, search, node, var, to)?;
    walk_decided(alloc, search, node, &decided, levels)
}

/// The problem under a decision.
#[cycle(walk)]
fn walk_decided(
    alloc: Global,
    search: &mut Search,
    node: Node,
    decided: &Decided,
    levels: u32,
) -> Result<Branch, Stop> {
    if let Some(place) = decided.refuted() {
        return refuted_branch(alloc, search, node.items.len(), place);
    }
    let items = decided.items(alloc, node.items)?;
    let below = Node {
        cases: &decided.cases,
        truths: &decided.truths,
        items: &items,
        cuts: node.cuts,
    };
    let found = walk(alloc, search, below, levels)?;
    Ok(carried(alloc, node.items.len(), &items, &found)?)
}

/// The plan of a problem whose conjunct at a place the decision makes false.
fn refuted_branch(
    alloc: Global,
    search: &mut Search,
    count: usize,
    place: usize,
) -> Result<Branch, Stop> {
    let mut used = unused(alloc, count)?;
    mark(&mut used, place);
    Ok(Branch {
        plan: search.plans.absurd()?,
        used,
        needs_division: true,
    })
}

/// The disjunction at a place is split.
#[cycle(walk)]
fn walk_parts(
    alloc: Global,
    search: &mut Search,
    node: Node,
    place: usize,
    levels: u32,
) -> Result<Found, Stop> {
    let Some(item) = node.items.get(place) else {
        return Err(Stop::Unfound);
    };
    let Some(parts) = disjuncts(item.form) else {
        return Err(Stop::Unfound);
    };
    let mut used = unused(alloc, node.items.len())?;
    let mut plans = Vec::with_capacity(alloc, parts.len())?;
    for (k, part) in parts.iter().enumerate() {
        let branch = part_branch(alloc, search, node, place, k, part, levels)?;
        if !branch.needs_division {
            return Ok(alone(branch));
        }
        join(&mut used, &branch.used);
        plans.push(branch.plan)?;
    }
    let plan = search.plans.branch(Step::Split(item.name), plans)?;
    Ok(Found { plan, used })
}

#[cycle(walk)]
fn part_branch(
    alloc: Global,
    search: &mut Search,
    node: Node,
    place: usize,
    k: usize,
    part: &Form,
    levels: u32,
) -> Result<Branch, Stop> {
    let items = split_items(alloc, node.items, place, k, part)?;
    let below = Node {
        items: &items,
        ..node
    };
    let found = walk(alloc, search, below, levels)?;
    Ok(carried(alloc, node.items.len(), &items, &found)?)
}

/// There are lines alone: they are solved over whole numbers.
#[cycle(walk)]
fn walk_lines(alloc: Global, search: &mut Search, node: Node, levels: u32) -> Result<Found, Stop> {
    match solve(alloc, search, node)? {
        Solved::Closes(found) => Ok(found),
        Solved::Cuts(form) => walk_sides(alloc, search, node, &form, levels),
        Solved::Holds(numbers) => {
            search.keep(alloc, node, numbers)?;
            Err(Stop::Unfound)
        }
    }
}

/// A cut is made.
#[cycle(walk)]
fn walk_sides(
    alloc: Global,
    search: &mut Search,
    node: Node,
    form: &Lin,
    levels: u32,
) -> Result<Found, Stop> {
    let first = side_branch(alloc, search, node, form, true, levels)?;
    if !first.needs_division {
        return Ok(alone(first));
    }
    let second = side_branch(alloc, search, node, form, false, levels)?;
    if !second.needs_division {
        return Ok(alone(second));
    }
    let number = search.plans.cut(form.copy(alloc)?)?;
    both(alloc, search, Step::Cut(number), first, &second)
}

#[cycle(walk)]
fn side_branch(
    alloc: Global,
    search: &mut Search,
    node: Node,
    form: &Lin,
    plus: bool,
    levels: u32,
) -> Result<Branch, Stop> {
    let row = side_row(alloc, form, plus)?;
    let items = side_items(alloc, node.items, form, &row, plus)?;
    let below = Node {
        items: &items,
        cuts: node.cuts.saturating_sub(1),
        ..node
    };
    let found = walk(alloc, search, below, levels)?;
    Ok(carried(alloc, node.items.len(), &items, &found)?)
}

/// A plan of a condition's problem. The opposite of what is shown stands last: where several things are to be shown, each of them is
/// shown by itself.
pub(crate) fn walk_first(
    alloc: Global,
    search: &mut Search,
    node: Node,
    levels: u32,
) -> Result<Found, Stop> {
    let place = node.items.len().saturating_sub(1);
    if is_disjunction(node.items, place) {
        return walk_parts(alloc, search, node, place, levels);
    }
    walk(alloc, search, node, levels)
}

/// Whether a disjunction stands at a place.
fn is_disjunction(items: &[Item], place: usize) -> bool {
    match items.get(place) {
        Some(item) => disjuncts(item.form).is_some(),
        None => false,
    }
}
