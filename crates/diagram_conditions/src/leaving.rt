//! The edges that leave a node, each with the node that it leads to. They are looked up once for a node, so that no step
//! goes over the edges of other nodes.

ghost use Rattle.std.specs.Prelude.{◌≡◌, IfOk, map};
ghost use Rattle.std.specs.Option.{option_map};
ghost use Rattle.temporal_goals.specs.Plain.{plain_drawn_node, plain_diagram};
ghost use Rattle.rule_laws.specs.Diagrams.{node_numbered as node_numbered_of};
ghost use Rattle.diagram_conditions.specs.Leaving.{leaving_from};
ghost use Rattle.diagram_conditions.specs.Plain.{plain_leaving};

use st_memory::Memory;
use std::alloc::Global;
use temporal_goals::{Diagram, DiagramNode, Edge};

/// An edge, and the node that it leads to, if one has that number; the terminal node has none.
#[derive(Drop)]
pub struct Leaving<'a> {
    pub edge: &'a Edge,
    pub end: Option<&'a DiagramNode>,
}

/// The first node with this number.
fn node_numbered<'a>(number: u32, diagram: &'a Diagram) -> Option<&'a DiagramNode>
    ensures { option_map (λ n. plain_drawn_node n.now) result ≡ node_numbered_of number (plain_diagram diagram.now).nodes }
{
    for node in &diagram.nodes {
        if node.number == number {
            return Some(node);
        }
    }
    None
}

/// The edges that leave the node with this number, in order.
pub fn edges_from<'a>(
    alloc: Global,
    number: u32,
    diagram: &'a Diagram,
) -> Result<Vec<Leaving<'a>>, Memory>
    ensures { IfOk result (λ v. map plain_leaving v.items ≡ leaving_from number (plain_diagram diagram.now).nodes (plain_diagram diagram.now).edges) }
{
    let mut out = Vec::new(alloc);
    for edge in &diagram.edges {
        if edge.from == number {
            let end = node_numbered(edge.to, diagram);
            out.push(Leaving { edge, end })?;
        }
    }
    Ok(out)
}
