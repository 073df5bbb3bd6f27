//! Where a step of one transition may lead from a node: it stays there, or goes along an edge on the transition.
//!
//! In a wait or chain diagram edges go to lower numbers. In a rank diagram the rank falls along each edge and doesn't rise
//! on the node. In a chain or rank diagram no step of the node's helper stays.

ghost use Rattle.std.specs.Prelude.{◌≡◌, ◌++◌, IfOk, OnOk, map};
ghost use Rattle.st_form.specs.Plain.{plain};
ghost use Rattle.temporal_goals.specs.Plain.{plain_drawn_node};
ghost use Rattle.vc_generator.specs.Plain.{plain_case};
ghost use Rattle.rule_laws.specs.Names.{is_name};
ghost use Rattle.rule_laws.specs.Diagrams.{drawn_rank, case_on as case_on_of, falls_onto, rank_stays};
ghost use Rattle.rule_fits.specs.Fitting.{CanFall};
ghost use Rattle.diagram_conditions.specs.Leaving.{lower_case, falling_case, end_case, case_along, stay_case, step_cases as step_cases_of};
ghost use Rattle.diagram_conditions.specs.Plain.{plain_leaving};

use crate::leaving::Leaving;
use crate::ranks::rank;
use st_form::Form;
use st_memory::Memory;
use std::alloc::Global;
use temporal_goals::{DiagramKind, DiagramNode};
use vc_generator::Case;

/// Where a step of the transition with this number may lead from the node, along the edges that leave it.
pub fn step_cases(
    alloc: Global,
    kind: DiagramKind,
    terminal: &Form,
    node: &DiagramNode,
    edges: &[Leaving<'_>],
    number: u32,
) -> Result<Vec<Case>, Memory>
    requires { CanFall (drawn_rank (plain_drawn_node node.now)) }
    ensures { IfOk result (λ v. map plain_case v.items ≡ step_cases_of kind (plain terminal.now) (plain_drawn_node node.now) (map plain_leaving edges.now) number) }
{
    let mut out = Vec::new(alloc);
    push_stay(alloc, kind, node, number, &mut out)?;
    for leaving in edges {
        push_end(alloc, kind, terminal, node, leaving, number, &mut out)?;
    }
    Ok(out)
}

/// The case that a step stays on the node.
fn push_stay(
    alloc: Global,
    kind: DiagramKind,
    node: &DiagramNode,
    number: u32,
    out: &mut Vec<Case>,
) -> Result<(), Memory>
    ensures { OnOk result (map plain_case out.new.items ≡ map plain_case out.old.items ++ stay_case kind (plain_drawn_node node.now) number) }
{
    match kind {
        DiagramKind::Wait => {
            out.push(case_on(alloc, &node.form)?)?;
            Ok(())
        }
        DiagramKind::Chain => {
            if !is_helper(node, number) {
                out.push(case_on(alloc, &node.form)?)?;
            }
            Ok(())
        }
        DiagramKind::Rank => {
            if !is_helper(node, number) {
                out.push(staying(alloc, node)?)?;
            }
            Ok(())
        }
    }
}

fn is_helper(node: &DiagramNode, number: u32) -> bool
    ensures { result ≡ is_name node.now.helper number }
{
    match node.helper {
        Some(helper) => helper == number,
        None => false,
    }
}

/// The case that the state behind the step is on a node.
fn case_on(alloc: Global, form: &Form) -> Result<Case, Memory>
    ensures { IfOk result (λ c. plain_case c ≡ case_on_of (plain form.now)) }
{
    Ok(Case {
        now: Form::True,
        behind: form.copy(alloc)?,
        falls: Vec::new(alloc),
    })
}

/// The case that it is on the node still, and its rank hasn't risen.
fn staying(alloc: Global, node: &DiagramNode) -> Result<Case, Memory>
    ensures { IfOk result (λ c. plain_case c ≡ rank_stays (plain_drawn_node node.now)) }
{
    let behind = node.form.copy(alloc)?;
    let pair = (rank(alloc, node)?, rank(alloc, node)?);
    Ok(Case {
        now: Form::True,
        behind,
        falls: vec![in alloc; pair]?,
    })
}

/// The case that an edge gives, if it is one on the transition and leads where its diagram lets it.
fn push_end(
    alloc: Global,
    kind: DiagramKind,
    terminal: &Form,
    node: &DiagramNode,
    leaving: &Leaving<'_>,
    number: u32,
    out: &mut Vec<Case>,
) -> Result<(), Memory>
    requires { CanFall (drawn_rank (plain_drawn_node node.now)) }
    ensures { OnOk result (map plain_case out.new.items ≡ map plain_case out.old.items
        ++ case_along (end_case kind (plain terminal.now) (plain_drawn_node node.now)) number (plain_leaving leaving.now)) }
{
    if !leaving.edge.on.contains(&number) {
        return Ok(());
    }
    match kind {
        DiagramKind::Wait => push_lower(alloc, terminal, node.number, leaving, out),
        DiagramKind::Chain => push_lower(alloc, terminal, node.number, leaving, out),
        DiagramKind::Rank => push_falling(alloc, terminal, node, leaving, out),
    }
}

/// To the terminal node, or to a node with a number below `limit`.
fn push_lower(
    alloc: Global,
    terminal: &Form,
    limit: u32,
    leaving: &Leaving<'_>,
    out: &mut Vec<Case>,
) -> Result<(), Memory>
    ensures { OnOk result (map plain_case out.new.items ≡ map plain_case out.old.items
        ++ lower_case (plain terminal.now) limit leaving.now.edge.now.to (plain_leaving leaving.now).1) }
{
    let to = leaving.edge.to;
    if to == 0 {
        out.push(case_on(alloc, terminal)?)?;
        return Ok(());
    }
    if to < limit
        && let Some(end) = leaving.end
    {
        out.push(case_on(alloc, &end.form)?)?;
    }
    Ok(())
}

/// To the terminal node, or to a node, with a rank below the node's before.
fn push_falling(
    alloc: Global,
    terminal: &Form,
    node: &DiagramNode,
    leaving: &Leaving<'_>,
    out: &mut Vec<Case>,
) -> Result<(), Memory>
    requires { CanFall (drawn_rank (plain_drawn_node node.now)) }
    ensures { OnOk result (map plain_case out.new.items ≡ map plain_case out.old.items
        ++ falling_case (plain terminal.now) (plain_drawn_node node.now) leaving.now.edge.now.to (plain_leaving leaving.now).1) }
{
    if leaving.edge.to == 0 {
        out.push(case_on(alloc, terminal)?)?;
        return Ok(());
    }
    if let Some(end) = leaving.end {
        out.push(falling(alloc, node, end)?)?;
    }
    Ok(())
}

/// The case that the state behind the step is on the node `end`, with a rank below the one of `node` before.
fn falling(alloc: Global, node: &DiagramNode, end: &DiagramNode) -> Result<Case, Memory>
    requires { CanFall (drawn_rank (plain_drawn_node node.now)) }
    ensures { IfOk result (λ c. plain_case c ≡ falls_onto (plain_drawn_node node.now) (plain_drawn_node end.now)) }
{
    let behind = end.form.copy(alloc)?;
    let before = rank(alloc, node)?.lowered(alloc)?;
    let pair = (rank(alloc, end)?, before);
    Ok(Case {
        now: Form::True,
        behind,
        falls: vec![in alloc; pair]?,
    })
}
