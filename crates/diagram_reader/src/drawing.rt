//! What a drawing has so far, and the rules on its nodes and edges.

ghost use Rattle.std.specs.Prelude.{◌≡◌, ◌==◌, map};
ghost use Rattle.std.specs.List.{list_any};
ghost use Rattle.temporal_goals.specs.Plain.{plain_drawn_node};
ghost use Rattle.diagram_reader.specs.Drawn.{is_known, is_above, is_upward, has_ranks, has_helpers};

use st_form::Form;
use temporal_goals::{DiagramKind, DiagramNode, Edge};

/// How many nodes a diagram may have, the terminal node apart.
pub const NODES: usize = 64;

/// The terminal node's formula, the nodes and the edges, as far as they were read.
#[derive(Drop)]
pub struct Drawing {
    pub terminal: Option<Form>,
    pub nodes: Vec<DiagramNode>,
    pub edges: Vec<Edge>,
}

/// Whether one of the nodes has the number.
fn is_numbered(number: u32, nodes: &[DiagramNode]) -> bool
    ensures { result ≡ list_any (λ n. n.number == number) (map plain_drawn_node nodes.now) }
{
    for node in nodes {
        if node.number == number {
            return true;
        }
    }
    false
}

/// Whether the number is that of the terminal node, which is 0, or of one of the nodes.
pub fn is_known(number: u32, nodes: &[DiagramNode]) -> bool
    ensures { result ≡ is_known number (map plain_drawn_node nodes.now) }
{
    number == 0 || is_numbered(number, nodes)
}

/// Whether a node's number is none of the goal's levels.
pub fn is_above(kind: DiagramKind, levels: u32, number: u32) -> bool
    ensures { result ≡ is_above kind levels number }
{
    match kind {
        DiagramKind::Wait => number > levels,
        DiagramKind::Chain | DiagramKind::Rank => false,
    }
}

/// Whether an edge from a number to a number goes upward.
pub fn is_upward(kind: DiagramKind, from: u32, to: u32) -> bool
    ensures { result ≡ is_upward kind from to }
{
    match kind {
        DiagramKind::Wait | DiagramKind::Chain => from == 0 || to > from,
        DiagramKind::Rank => from == 0,
    }
}

/// Whether nodes have ranks.
pub fn has_ranks(kind: DiagramKind) -> bool
    ensures { result ≡ has_ranks kind }
{
    matches!(kind, DiagramKind::Rank)
}

/// Whether nodes have helpers.
pub fn has_helpers(kind: DiagramKind) -> bool
    ensures { result ≡ has_helpers kind }
{
    !matches!(kind, DiagramKind::Wait)
}
