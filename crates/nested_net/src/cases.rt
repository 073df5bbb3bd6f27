//! Each case of where a step from a node may lead: by a fall at a depth, by a free step at a depth, or not away. A fall or a free
//! step leads to nodes that agree on the groups outside, and raises nothing there.

ghost use Rattle.std.specs.Prelude.{◌≡◌, ◌++◌, ◌<◌, IfOk, OnOk, length, map};
ghost use Rattle.st_form.specs.Plain.{plain};
ghost use Rattle.transition_system.specs.Plain.{plain_system};
ghost use Rattle.temporal_goals.specs.Plain.{plain_level, plain_nested_node};
ghost use Rattle.vc_generator.specs.Plain.{plain_case};
ghost use Rattle.rule_laws.specs.NestedNet.{agreeing, nested_fall, nested_stay};
ghost use Rattle.nested_net.specs.Asked.{NodeCanFall};
ghost use Rattle.nested_net.specs.Walk.{free_within, fall_cases, free_cases, stay_cases};

use crate::levels::{agree, base_at, group_at, outside, push_pairs, top_at};
use ranked_net::fairness::enabled_of;
use st_form::Form;
use st_memory::Memory;
use std::alloc::Global;
use temporal_goals::NestedNode;
use transition_system::Fts;
use vc_generator::Case;

/// A fall at a depth: the new top there is below the old base.
fn fall_case(
    alloc: Global,
    depth: usize,
    node: &NestedNode,
    next: &NestedNode,
) -> Result<Case, Memory>
    requires { NodeCanFall (plain_nested_node node.now) }
    ensures { IfOk result (λ c. plain_case c ≡ nested_fall depth (plain_nested_node node.now) (plain_nested_node next.now)) }
{
    let top = top_at(depth, &next.levels, &next.delay).copy(alloc)?;
    let base = base_at(depth, &node.levels, &node.delay).lowered(alloc)?;
    let mut falls = vec![in alloc; (top, base)]?;
    push_pairs(alloc, depth, &node.levels, &next.levels, &mut falls)?;
    Ok(Case {
        now: Form::True,
        behind: next.form.copy(alloc)?,
        falls,
    })
}

/// A free step within the first so many groups: the innermost of them is enabled.
fn free_case(
    alloc: Global,
    enabled: &Form,
    count: usize,
    node: &NestedNode,
    next: &NestedNode,
) -> Result<Case, Memory>
    ensures { IfOk result (λ c. plain_case c ≡ free_within (plain enabled.now) count (plain_nested_node node.now) (plain_nested_node next.now)) }
{
    let mut falls = Vec::new(alloc);
    push_pairs(alloc, count, &node.levels, &next.levels, &mut falls)?;
    Ok(Case {
        now: enabled.copy(alloc)?,
        behind: next.form.copy(alloc)?,
        falls,
    })
}

/// The step stays on the node, and raises nothing.
fn stay_case(alloc: Global, node: &NestedNode) -> Result<Case, Memory>
    ensures { IfOk result (λ c. plain_case c ≡ nested_stay (plain_nested_node node.now)) }
{
    let fall = (node.delay.copy(alloc)?, node.delay.copy(alloc)?);
    let mut falls = vec![in alloc; fall]?;
    let all = node.levels.len();
    push_pairs(alloc, all, &node.levels, &node.levels, &mut falls)?;
    Ok(Case {
        now: Form::True,
        behind: node.form.copy(alloc)?,
        falls,
    })
}

/// The last case, of a step of a transition that is no group of the node and not its helper.
pub(crate) fn push_stay(
    alloc: Global,
    node: &NestedNode,
    cases: &mut Vec<Case>,
) -> Result<(), Memory>
    ensures { OnOk result (map plain_case cases.new.items ≡ map plain_case cases.old.items ++ stay_cases (plain_nested_node node.now)) }
{
    cases.push(stay_case(alloc, node)?)?;
    Ok(())
}

/// The falls at a depth, to each node that agrees on the groups outside.
pub(crate) fn push_falls(
    alloc: Global,
    nodes: &[NestedNode],
    node: &NestedNode,
    depth: usize,
    cases: &mut Vec<Case>,
) -> Result<(), Memory>
    requires { NodeCanFall (plain_nested_node node.now) }
    ensures { OnOk result (map plain_case cases.new.items
        ≡ map plain_case cases.old.items ++ fall_cases (map plain_nested_node nodes.now) (plain_nested_node node.now) depth) }
{
    for next in nodes {
        if agree(depth, &node.levels, &next.levels) {
            cases.push(fall_case(alloc, depth, node, next)?)?;
        }
    }
    Ok(())
}

fn push_free(
    alloc: Global,
    enabled: &Form,
    nodes: &[NestedNode],
    node: &NestedNode,
    count: usize,
    cases: &mut Vec<Case>,
) -> Result<(), Memory>
    ensures { OnOk result (map plain_case cases.new.items
        ≡ map plain_case cases.old.items ++ map (free_within (plain enabled.now) count (plain_nested_node node.now)) (agreeing count (map plain_level node.now.levels.items) (map plain_nested_node nodes.now))) }
{
    for next in nodes {
        if agree(count, &node.levels, &next.levels) {
            cases.push(free_case(alloc, enabled, count, node, next)?)?;
        }
    }
    Ok(())
}

/// The free steps at a depth, to each node that agrees on the groups up to there.
pub(crate) fn push_frees(
    alloc: Global,
    fts: &Fts,
    nodes: &[NestedNode],
    node: &NestedNode,
    depth: usize,
    cases: &mut Vec<Case>,
) -> Result<(), Memory>
    requires { depth < length node.now.levels.items }
    ensures { OnOk result (map plain_case cases.new.items
        ≡ map plain_case cases.old.items ++ free_cases (plain_system fts.now) (map plain_nested_node nodes.now) (plain_nested_node node.now) depth) }
{
    let group = group_at(depth, &node.levels);
    let enabled = enabled_of(alloc, fts, group)?;
    push_free(alloc, &enabled, nodes, node, depth + 1, cases)
}
