//! Making a net: each helper is just, each group is compassionate, and each node has one of them.

ghost use Rattle.std.specs.Prelude.{◌≡◌, ◌<◌, ◌^◌, IfOk, length, map};
ghost use Rattle.transition_system.specs.Plain.{plain_system};
ghost use Rattle.temporal_goals.specs.Plain.{plain_node, plain_net};
ghost use Rattle.rule_fits.specs.Fitting.{NodesFit};
ghost use Rattle.ranked_net.specs.Making.{node_fault as node_fault_of, first_fault as first_fault_of, MakesNet};

use crate::fairness::{is_uncompassionate, is_unfair};
use crate::faults::NetFault;
use std::alloc::Global;
use temporal_goals::{Net, Node};
use transition_system::Fts;

/// The first rule that the node of this number breaks.
fn node_fault(fts: &Fts, number: u32, node: &Node) -> Option<NetFault>
    ensures { result ≡ node_fault_of (plain_system fts.now) number node.now.helper node.now.group }
{
    if is_unfair(fts, node.helper) {
        return Some(NetFault::UnfairHelper(number));
    }
    if is_uncompassionate(fts, node.group) {
        return Some(NetFault::NotCompassionate(number));
    }
    if node.helper.is_some() || node.group.is_some() {
        return None;
    }
    Some(NetFault::NoHelper(number))
}

/// The first rule that a node breaks.
fn first_fault(fts: &Fts, nodes: &[Node]) -> Option<NetFault>
    requires { length nodes.now < 2 ^ 32 }
    ensures { result ≡ first_fault_of (plain_system fts.now) 0 (map plain_node nodes.now) }
{
    for index in 0..nodes.len() {
        let fault = node_fault(fts, index as u32, &nodes[index]);
        if fault.is_some() {
            return fault;
        }
    }
    None
}

/// The net with these nodes, or the first fault: the first node that breaks a rule, and of its faults the first. It moves the
/// nodes and takes no memory.
pub fn make_net(_alloc: Global, fts: &Fts, nodes: Vec<Node>) -> Result<Net, NetFault>
    requires { length nodes.items < 2 ^ 32 }
    ensures made { MakesNet result (plain_system fts.now) (map plain_node nodes.items) }
    ensures fits { IfOk result (λ net. NodesFit (plain_system fts.now) (plain_net net)) }
{
    match first_fault(fts, &nodes) {
        Some(fault) => Err(fault),
        None => Ok(Net { nodes }),
    }
}
