//! A graph that is to be drawn. Nodes are named by their places.

use st_memory::Memory;
use std::alloc::Global;

/// What a node is drawn as.
#[derive(Clone, Copy, Debug, PartialEq, Eq)]
pub enum Shape {
    /// A location.
    Location,
    /// Where a process begins: only the edge that leads from it is seen.
    Beginning,
    /// A transition with several locations before it or behind it.
    Bar,
    /// An assertion.
    Assertion,
    /// The assertion of the terminal node.
    Terminal,
}

/// What an edge is drawn as.
#[derive(Clone, Copy, Debug, PartialEq, Eq)]
pub enum Line {
    Solid,
    /// A transition that a run owes compassion.
    Heavy,
    /// A transition that a run owes nothing.
    Dashed,
    /// A helpful transition of a proof.
    Double,
}

#[derive(Drop)]
pub struct Node {
    pub shape: Shape,
    pub label: String,
}

#[derive(Drop)]
pub struct Edge {
    pub from: usize,
    pub to: usize,
    pub line: Line,
    pub label: String,
}

/// A frame around nodes. Its depth is the number of frames around it, and those stand before it.
#[derive(Drop)]
pub struct Cluster {
    pub label: String,
    pub depth: usize,
    pub nodes: Vec<usize>,
}

#[derive(Drop)]
pub struct Graph {
    pub name: String,
    pub caption: String,
    pub clusters: Vec<Cluster>,
    pub nodes: Vec<Node>,
    pub edges: Vec<Edge>,
}

impl Graph {
    /// A graph with nothing in it.
    pub(crate) fn new(alloc: Global, name: String, caption: String) -> Graph {
        Graph {
            name,
            caption,
            clusters: Vec::new(alloc),
            nodes: Vec::new(alloc),
            edges: Vec::new(alloc),
        }
    }

    /// Adds a node, and answers its place.
    pub(crate) fn add_node(&mut self, shape: Shape, label: String) -> Result<usize, Memory> {
        let place = self.nodes.len();
        self.nodes.push(Node { shape, label })?;
        Ok(place)
    }

    /// Adds an edge.
    pub(crate) fn add_edge(
        &mut self,
        from: usize,
        to: usize,
        line: Line,
        label: String,
    ) -> Result<(), Memory> {
        self.edges.push(Edge {
            from,
            to,
            line,
            label,
        })?;
        Ok(())
    }
}
