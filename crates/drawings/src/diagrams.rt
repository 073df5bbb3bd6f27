//! Verification diagrams: a node for each assertion, and an edge for the transitions that may lead from one to another. What a helper
//! does has an edge of its own.

use crate::graph::{Graph, Line, Shape};
use crate::labels::{assertion_label, transition_label, transitions_label};
use formula_words::{Vocabulary, formula, sum};
use indexmap::IndexMap;
use st_memory::Memory;
use std::alloc::Global;
use temporal_goals::{Diagram, DiagramNode, Edge};
use transition_system::Fts;

/// What a node says beside its assertion: its rank and its helper.
fn node_text(
    alloc: Global,
    words: &Vocabulary,
    system: &Fts,
    node: &DiagramNode,
) -> Result<String, Memory> {
    let mut out = String::new(alloc);
    if let Some(rank) = &node.rank {
        out.push_str("rank ")?;
        out.push_str(&sum(alloc, words, rank)?)?;
    }
    if let Some(helper) = node.helper {
        out.push_str(if out.is_empty() {
            "helper "
        } else {
            ", helper "
        })?;
        out.push_str(&transition_label(alloc, words, system, helper)?)?;
    }
    Ok(out)
}

/// A node's place in the graph, and its helper.
type Placed = IndexMap<u32, (usize, Option<u32>)>;

/// Adds all nodes, the terminal one first.
fn add_nodes(
    alloc: Global,
    graph: &mut Graph,
    words: &Vocabulary,
    system: &Fts,
    diagram: &Diagram,
) -> Result<Placed, Memory> {
    let mut placed = IndexMap::new(alloc);
    let terminal = formula(alloc, words, &diagram.terminal)?;
    let label = assertion_label(alloc, 0, &terminal, "")?;
    placed.insert(0, (graph.add_node(Shape::Terminal, label)?, None))?;
    for node in &diagram.nodes {
        let more = node_text(alloc, words, system, node)?;
        let text = formula(alloc, words, &node.form)?;
        let label = assertion_label(alloc, u64::from(node.number), &text, &more)?;
        let place = graph.add_node(Shape::Assertion, label)?;
        placed.insert(node.number, (place, node.helper))?;
    }
    Ok(placed)
}

/// The transitions of an edge that are the helper, or those that aren't.
fn parted(
    alloc: Global,
    edge: &Edge,
    helper: Option<u32>,
    helpful: bool,
) -> Result<Vec<u32>, Memory> {
    let mut out = Vec::new(alloc);
    for transition in &edge.on {
        if (helper == Some(*transition)) == helpful {
            out.push(*transition)?;
        }
    }
    Ok(out)
}

/// Adds what of an edge is the helper's, or what isn't.
fn add_part(
    alloc: Global,
    graph: &mut Graph,
    words: &Vocabulary,
    system: &Fts,
    ends: (usize, usize),
    transitions: &[u32],
    line: Line,
) -> Result<(), Memory> {
    if transitions.is_empty() {
        return Ok(());
    }
    let label = transitions_label(alloc, words, system, transitions)?;
    graph.add_edge(ends.0, ends.1, line, label)
}

fn add_edge(
    alloc: Global,
    graph: &mut Graph,
    words: &Vocabulary,
    system: &Fts,
    placed: &Placed,
    edge: &Edge,
) -> Result<(), Memory> {
    if let (Some(from), Some(to)) = (placed.get(&edge.from), placed.get(&edge.to)) {
        let ends = (from.0, to.0);
        let helpful = parted(alloc, edge, from.1, true)?;
        let others = parted(alloc, edge, from.1, false)?;
        add_part(alloc, graph, words, system, ends, &helpful, Line::Double)?;
        add_part(alloc, graph, words, system, ends, &others, Line::Solid)?;
    }
    Ok(())
}

/// Adds a diagram to a graph.
pub(crate) fn add_diagram(
    alloc: Global,
    graph: &mut Graph,
    words: &Vocabulary,
    system: &Fts,
    diagram: &Diagram,
) -> Result<(), Memory> {
    let placed = add_nodes(alloc, graph, words, system, diagram)?;
    for edge in &diagram.edges {
        add_edge(alloc, graph, words, system, &placed, edge)?;
    }
    Ok(())
}
