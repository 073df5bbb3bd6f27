//! Trees of certificates by number. Trees share their parts: a part that stands in many trees is kept once.
//!
//! A search that meets the same problem again gives the same number again, so what it finds is a directed acyclic graph, and
//! only what is asked for in the end is unfolded into a certificate.
#![tactic(auto)]

mod certificates;
mod nodes;
mod sameness;
mod sizes;
mod tables;

pub use certificates::certificate;
pub use nodes::{Kind, Node, Size, Step};
pub use sameness::is_same;
pub use tables::TreeTable;
