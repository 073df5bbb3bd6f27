//! Making a nested net: each helper is just, each group is compassionate, and each node has a helper or a group.

ghost use Rattle.std.specs.Prelude.{◌≡◌, ◌<◌, ◌^◌, IfOk, length, map};
ghost use Rattle.transition_system.specs.Plain.{plain_system};
ghost use Rattle.temporal_goals.specs.Plain.{plain_level, plain_nested_node, plain_nested};
ghost use Rattle.rule_fits.specs.Fitting.{NestedFit};
ghost use Rattle.nested_net.specs.Making.{some_uncompassionate as some_uncompassionate_of, node_fault as node_fault_of, first_fault as first_fault_of, MakesNested};

use crate::faults::NestedFault;
use ranked_net::fairness::{is_uncompassionate, is_unfair};
use std::alloc::Global;
use temporal_goals::{Level, NestedNet, NestedNode};
use transition_system::Fts;

/// Whether some group isn't compassionate.
fn some_uncompassionate(fts: &Fts, levels: &[Level]) -> bool
    ensures { result ≡ some_uncompassionate_of (plain_system fts.now) (map plain_level levels.now) }
{
    for level in levels {
        if is_uncompassionate(fts, Some(level.group)) {
            return true;
        }
    }
    false
}

/// The first rule that the node of this number breaks.
fn node_fault(fts: &Fts, number: u32, node: &NestedNode) -> Option<NestedFault>
    ensures { result ≡ node_fault_of (plain_system fts.now) number (plain_nested_node node.now) }
{
    if is_unfair(fts, node.helper) {
        return Some(NestedFault::UnfairHelper(number));
    }
    if some_uncompassionate(fts, &node.levels) {
        return Some(NestedFault::NotCompassionate(number));
    }
    if node.helper.is_some() {
        return None;
    }
    if node.levels.is_empty() {
        return Some(NestedFault::NoHelper(number));
    }
    None
}

/// The first rule that a node breaks.
fn first_fault(fts: &Fts, nodes: &[NestedNode]) -> Option<NestedFault>
    requires { length nodes.now < 2 ^ 32 }
    ensures { result ≡ first_fault_of (plain_system fts.now) 0 (map plain_nested_node nodes.now) }
{
    for index in 0..nodes.len() {
        let fault = node_fault(fts, index as u32, &nodes[index]);
        if fault.is_some() {
            return fault;
        }
    }
    None
}

/// The net with these nodes, or the first fault: the first node that breaks a rule, and of its faults the first. It moves the
/// nodes and takes no memory.
pub fn make_nested(
    _alloc: Global,
    fts: &Fts,
    nodes: Vec<NestedNode>,
) -> Result<NestedNet, NestedFault>
    requires { length nodes.items < 2 ^ 32 }
    ensures made { MakesNested result (plain_system fts.now) (map plain_nested_node nodes.items) }
    ensures fits { IfOk result (λ net. NestedFit (plain_system fts.now) (plain_nested net)) }
{
    match first_fault(fts, &nodes) {
        Some(fault) => Err(fault),
        None => Ok(NestedNet { nodes }),
    }
}
