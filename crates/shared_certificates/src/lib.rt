//! Certificate texts of version 3: trees that share their parts, by number.
//!
//! A search that meets a problem again finds the same tree again. So what it finds is a directed acyclic graph, and its text
//! names each tree once, on a line of its own, and refers to it by number wherever it stands.
#![tactic(auto)]

mod nodes;
mod refusals;

pub use nodes::{Node, Step, Table};
pub use refusals::{Fault, Refusal};
