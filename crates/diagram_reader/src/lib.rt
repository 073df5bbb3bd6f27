//! Verification diagrams from text (Manna and Pnueli, *Temporal Verification Diagrams*, 1994): a terminal node, nodes with
//! numbers of their own, and edges on transitions, read from left to right up to the first fault.
#![tactic(auto)]

mod drawing;
mod edge;
mod fault;
mod item;
pub mod laws;
mod node;
mod reading;
mod setting;
mod transition;
mod unit;

pub use fault::DiagramFault;
pub use reading::read_diagram;
pub use transition::read_transition;
