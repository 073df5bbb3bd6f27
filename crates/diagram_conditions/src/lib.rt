//! Verification diagrams as rules (Manna and Pnueli, *Temporal Verification Diagrams*, 1994): wait diagrams for nested
//! waiting-for, chain and rank diagrams for response.
//!
//! A diagram has a terminal node, nodes with numbers of their own, and edges that name transitions. Its conditions say
//! that the goal's first formula leads onto the diagram, what each node is worth for the goal, and for each node and mode
//! that a step stays on the node or goes along an edge on its transition.
#![tactic(auto)]

mod cases;
mod ends;
mod leaving;
mod listing;
mod moves;
mod nodes;
mod premises;
mod ranks;
mod rules;
mod starts;

pub use rules::Drawn;
