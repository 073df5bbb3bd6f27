//! Goals, rules and proof scripts as data: what a proof text says, once it is read.
//!
//! The rules are those of Manna and Pnueli, *Temporal Verification of Reactive Systems: Safety* (1995) for invariance
//! and nested waiting-for, of their *Progress* for response, and of *Temporal Verification Diagrams* (1994). Variables,
//! locations and transitions are numbers from 0.
#![tactic(auto)]

mod diagrams;
mod goals;
mod nested;
mod nets;
mod scripts;

pub use diagrams::{Diagram, DiagramKind, DiagramNode, Edge};
pub use goals::Goal;
pub use nested::{Level, NestedNet, NestedNode};
pub use nets::{Net, Node};
pub use scripts::{RuleText, Script, Step};
