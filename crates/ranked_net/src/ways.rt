//! Where a step may lead from a node, by what its transition is to the node: its group, its helper, or another one.

ghost use Rattle.std.specs.Prelude.{◌≡◌, ◌++◌, IfOk, OnOk, map, is_some};
ghost use Rattle.st_form.specs.Plain.{plain};
ghost use Rattle.transition_system.specs.Plain.{plain_system};
ghost use Rattle.temporal_goals.specs.Plain.{plain_node};
ghost use Rattle.vc_generator.specs.Plain.{plain_case};
ghost use Rattle.rule_laws.specs.Names.{same_group as same_group_of};
ghost use Rattle.rule_laws.specs.RankedNet.{case_free, case_inner, grouped, cases_if};
ghost use Rattle.rule_fits.specs.Fitting.{CanFall};
ghost use Rattle.ranked_net.specs.Walk.{free_under, own_cases, group_cases};

use crate::cases::{drop_case, end_case, free_case, inner_case};
use crate::fairness::enabled_of;
use st_form::Form;
use st_memory::Memory;
use std::alloc::Global;
use temporal_goals::Node;
use transition_system::Fts;
use vc_generator::Case;

/// Whether both have the same group, or none has one.
fn same_group(group: Option<u32>, other: Option<u32>) -> bool
    ensures { result ≡ same_group_of group other }
{
    match group {
        Some(group) => match other {
            Some(other) => group == other,
            None => false,
        },
        None => other.is_none(),
    }
}

/// The cases of a step of the node's group: the end, and a drop to any node.
pub(crate) fn group_steps(
    alloc: Global,
    end: &Form,
    nodes: &[Node],
    node: &Node,
) -> Result<Vec<Case>, Memory>
    requires { CanFall node.now.base }
    ensures { IfOk result (λ v. map plain_case v.items ≡ own_cases (map plain_node nodes.now) (plain end.now) (plain_node node.now)) }
{
    let mut cases = vec![in alloc; end_case(alloc, end)?]?;
    for next in nodes {
        cases.push(drop_case(alloc, node, next)?)?;
    }
    Ok(cases)
}

fn push_free(
    alloc: Global,
    enabled: &Form,
    nodes: &[Node],
    node: &Node,
    cases: &mut Vec<Case>,
) -> Result<(), Memory>
    ensures { OnOk result (map plain_case cases.new.items
        ≡ map plain_case cases.old.items ++ map (free_under (plain enabled.now) (plain_node node.now)) (grouped node.now.group (map plain_node nodes.now))) }
{
    for next in nodes {
        if same_group(node.group, next.group) {
            cases.push(free_case(alloc, enabled, node, next)?)?;
        }
    }
    Ok(())
}

fn push_inner(
    alloc: Global,
    nodes: &[Node],
    node: &Node,
    cases: &mut Vec<Case>,
) -> Result<(), Memory>
    requires { CanFall node.now.delay }
    ensures { OnOk result (map plain_case cases.new.items
        ≡ map plain_case cases.old.items ++ map (case_inner (plain_node node.now)) (grouped node.now.group (map plain_node nodes.now))) }
{
    for next in nodes {
        if same_group(node.group, next.group) {
            cases.push(inner_case(alloc, node, next)?)?;
        }
    }
    Ok(())
}

/// Free moves, if the node has a group.
fn push_frees(
    alloc: Global,
    fts: &Fts,
    nodes: &[Node],
    node: &Node,
    cases: &mut Vec<Case>,
) -> Result<(), Memory>
    ensures { OnOk result (map plain_case cases.new.items
        ≡ map plain_case cases.old.items ++ cases_if (is_some node.now.group) (map (case_free (plain_system fts.now) (plain_node node.now)) (grouped node.now.group (map plain_node nodes.now)))) }
{
    match node.group {
        Some(_) => {
            let enabled = enabled_of(alloc, fts, node.group)?;
            push_free(alloc, &enabled, nodes, node, cases)
        }
        None => Ok(()),
    }
}

/// The further cases within the group, of a step of another transition: free moves if there is a group, and inner drops.
pub(crate) fn push_within(
    alloc: Global,
    fts: &Fts,
    nodes: &[Node],
    node: &Node,
    cases: &mut Vec<Case>,
) -> Result<(), Memory>
    requires { CanFall node.now.delay }
    ensures { OnOk result (map plain_case cases.new.items
        ≡ map plain_case cases.old.items ++ group_cases (plain_system fts.now) (map plain_node nodes.now) (plain_node node.now)) }
{
    push_frees(alloc, fts, nodes, node, cases)?;
    push_inner(alloc, nodes, node, cases)
}
