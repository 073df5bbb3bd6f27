//! Drawings of programs and proofs for Graphviz: control graphs as the transition diagrams of Manna and Pnueli (*The Temporal Logic
//! of Reactive and Concurrent Systems: Specification*, 1992), and verification diagrams as in their *Temporal Verification
//! Diagrams* (1994): rounded boxes for assertions, a double border around the terminal one, double lines for helpful transitions.
#![tactic(auto)]

mod control;
mod diagrams;
mod graph;
mod labels;
mod levels;
mod nets;
mod places;
mod steps;
mod writing;

pub use control::control_graph;
pub use graph::{Cluster, Edge, Graph, Line, Node, Shape};
pub use steps::{DrawingFault, proof_graphs, step_graph};
pub use writing::dot;
