//! Where a step may lead from a node, by which of the node's groups its transition is.
//!
//! Which cases a transition may take depends on the first of the node's groups that it is, and on whether it is the helper. So
//! the cases are built once for each group and once for other transitions.

ghost use Rattle.std.specs.Prelude.{◌≡◌, ◌++◌, ◌∷◌, [], ◌<◌, ◌≤◌, IfOk, OnOk, length, map};
ghost use Rattle.st_form.specs.Plain.{plain};
ghost use Rattle.transition_system.specs.Plain.{plain_system};
ghost use Rattle.temporal_goals.specs.Plain.{plain_level, plain_nested_node};
ghost use Rattle.vc_generator.specs.Plain.{plain_case};
ghost use Rattle.rule_laws.specs.NestedNet.{each_depth};
ghost use Rattle.nested_net.specs.Asked.{NodeCanFall};
ghost use Rattle.nested_net.specs.Walk.{fall_cases, free_cases, depth_cases as depth_cases_of, plain_lists, listed_depths, chosen as chosen_of};

use crate::cases::{push_falls, push_frees};
use crate::levels::outside;
use ranked_net::cases::end_case;
use ranked_net::fairness::is_name;
use st_form::Form;
use st_memory::Memory;
use std::alloc::Global;
use temporal_goals::{Level, NestedNode};
use transition_system::Fts;
use vc_generator::Case;

fn push_all_falls(
    alloc: Global,
    nodes: &[NestedNode],
    node: &NestedNode,
    count: usize,
    cases: &mut Vec<Case>,
) -> Result<(), Memory>
    requires { NodeCanFall (plain_nested_node node.now) }
    ensures { OnOk result (map plain_case cases.new.items
        ≡ map plain_case cases.old.items ++ each_depth (fall_cases (map plain_nested_node nodes.now) (plain_nested_node node.now)) 0 count) }
{
    for depth in 0..count {
        push_falls(alloc, nodes, node, depth, cases)?;
    }
    Ok(())
}

fn push_all_frees(
    alloc: Global,
    fts: &Fts,
    nodes: &[NestedNode],
    node: &NestedNode,
    count: usize,
    cases: &mut Vec<Case>,
) -> Result<(), Memory>
    requires { count ≤ length node.now.levels.items }
    ensures { OnOk result (map plain_case cases.new.items
        ≡ map plain_case cases.old.items ++ each_depth (free_cases (plain_system fts.now) (map plain_nested_node nodes.now) (plain_nested_node node.now)) 0 count) }
{
    for depth in 0..count {
        push_frees(alloc, fts, nodes, node, depth, cases)?;
    }
    Ok(())
}

/// All cases but for the stay, of a step of the group at a depth, or of a transition that is no group where the depth is how many
/// groups there are.
pub(crate) fn depth_cases(
    alloc: Global,
    fts: &Fts,
    end: &Form,
    nodes: &[NestedNode],
    node: &NestedNode,
    depth: usize,
) -> Result<Vec<Case>, Memory>
    requires can_fall { NodeCanFall (plain_nested_node node.now) }
    requires within { depth ≤ length node.now.levels.items }
    ensures { IfOk result (λ v. map plain_case v.items ≡ depth_cases_of (plain_system fts.now) (map plain_nested_node nodes.now) (plain end.now) (plain_nested_node node.now) depth) }
{
    let mut cases = vec![in alloc; end_case(alloc, end)?]?;
    push_all_falls(alloc, nodes, node, depth + 1, &mut cases)?;
    push_all_frees(alloc, fts, nodes, node, depth, &mut cases)?;
    Ok(cases)
}

fn push_list(cases: Vec<Case>, lists: &mut Vec<Vec<Case>>) -> Result<(), Memory>
    ensures { OnOk result (plain_lists lists.new.items ≡ plain_lists lists.old.items ++ map plain_case cases.items ∷ []) }
{
    lists.push(cases)?;
    Ok(())
}

/// The cases of a step of each group of the node.
pub(crate) fn group_cases(
    alloc: Global,
    fts: &Fts,
    end: &Form,
    nodes: &[NestedNode],
    node: &NestedNode,
) -> Result<Vec<Vec<Case>>, Memory>
    requires { NodeCanFall (plain_nested_node node.now) }
    ensures { IfOk result (λ v. plain_lists v.items ≡ listed_depths (depth_cases_of (plain_system fts.now) (map plain_nested_node nodes.now) (plain end.now) (plain_nested_node node.now)) 0 (length node.now.levels.items)) }
{
    let mut lists = Vec::new(alloc);
    for depth in 0..node.levels.len() {
        let cases = depth_cases(alloc, fts, end, nodes, node, depth)?;
        push_list(cases, &mut lists)?;
    }
    Ok(lists)
}

/// The cases for the transition with this number.
pub(crate) fn chosen<'a>(
    levels: &[Level],
    helper: Option<u32>,
    groups: &'a [Vec<Case>],
    helped: &'a [Case],
    other: &'a [Case],
    number: u32,
) -> &'a [Case]
    ensures { map plain_case result.now ≡ chosen_of (map plain_level levels.now) helper (plain_lists groups.now) (map plain_case helped.now) (map plain_case other.now) number }
{
    let depth = outside(number, levels);
    if depth < levels.len() {
        match groups.get(depth) {
            Some(cases) => cases,
            None => &[],
        }
    } else if is_name(helper, number) {
        helped
    } else {
        other
    }
}
