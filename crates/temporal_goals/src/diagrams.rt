//! Verification diagrams.

ghost use Rattle.std.specs.Prelude.{◌≡◌, IfOk, map};
ghost use Rattle.temporal_goals.specs.Plain.{plain_drawn_node, plain_edge, plain_diagram};

use st_form::Form;
use st_linear::Lin;
use st_memory::Memory;
use std::alloc::Global;

/// What a diagram proves: nested waiting-for, or response by a chain or by ranks.
#[derive(Clone, Copy, Debug, PartialEq, Eq)]
pub enum DiagramKind {
    Wait,
    Chain,
    Rank,
}

/// A node: its own number (from 1; the terminal node is 0), its assertion, in a rank diagram its rank, and in a chain or
/// rank diagram its helper.
#[derive(Drop)]
pub struct DiagramNode {
    pub number: u32,
    pub form: Form,
    pub rank: Option<Lin>,
    pub helper: Option<u32>,
}

/// An edge from a node to a node, by their own numbers, and the transitions that it is for.
#[derive(Drop)]
pub struct Edge {
    pub from: u32,
    pub to: u32,
    pub on: Vec<u32>,
}

/// A diagram: its kind, the assertion of its terminal node, its nodes and its edges.
#[derive(Drop)]
pub struct Diagram {
    pub kind: DiagramKind,
    pub terminal: Form,
    pub nodes: Vec<DiagramNode>,
    pub edges: Vec<Edge>,
}

fn copy_rank(alloc: Global, rank: &Option<Lin>) -> Result<Option<Lin>, Memory>
    ensures { IfOk result (λ r. r ≡ rank.now) }
{
    match rank {
        Some(rank) => Ok(Some(rank.copy(alloc)?)),
        None => Ok(None),
    }
}

impl DiagramNode {
    /// An equal node.
    pub fn copy(&self, alloc: Global) -> Result<DiagramNode, Memory>
        ensures { IfOk result (λ n. plain_drawn_node n ≡ plain_drawn_node self.now) }
    {
        Ok(DiagramNode {
            number: self.number,
            form: self.form.copy(alloc)?,
            rank: copy_rank(alloc, &self.rank)?,
            helper: self.helper,
        })
    }
}

impl Edge {
    /// An equal edge.
    pub fn copy(&self, alloc: Global) -> Result<Edge, Memory>
        ensures { IfOk result (λ e. plain_edge e ≡ plain_edge self.now) }
    {
        Ok(Edge {
            from: self.from,
            to: self.to,
            on: Vec::from_slice(alloc, &self.on)?,
        })
    }
}

fn copy_nodes(alloc: Global, nodes: &[DiagramNode]) -> Result<Vec<DiagramNode>, Memory>
    ensures { IfOk result (λ v. map plain_drawn_node v.items ≡ map plain_drawn_node nodes.now) }
{
    let mut out = Vec::with_capacity(alloc, nodes.len())?;
    for node in nodes {
        out.push(node.copy(alloc)?)?;
    }
    Ok(out)
}

fn copy_edges(alloc: Global, edges: &[Edge]) -> Result<Vec<Edge>, Memory>
    ensures { IfOk result (λ v. map plain_edge v.items ≡ map plain_edge edges.now) }
{
    let mut out = Vec::with_capacity(alloc, edges.len())?;
    for edge in edges {
        out.push(edge.copy(alloc)?)?;
    }
    Ok(out)
}

impl Diagram {
    /// An equal diagram.
    pub fn copy(&self, alloc: Global) -> Result<Diagram, Memory>
        ensures { IfOk result (λ d. plain_diagram d ≡ plain_diagram self.now) }
    {
        Ok(Diagram {
            kind: self.kind,
            terminal: self.terminal.copy(alloc)?,
            nodes: copy_nodes(alloc, &self.nodes)?,
            edges: copy_edges(alloc, &self.edges)?,
        })
    }
}
