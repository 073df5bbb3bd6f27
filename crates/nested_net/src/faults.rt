//! Why nodes make no nested net.

use thiserror::Error;

/// Why nodes make no nested net. The number is the node's, from 0. At one node the fault that stands first here is named.
#[derive(Error, Debug, Clone, Copy, PartialEq, Eq)]
pub enum NestedFault {
    /// The helper isn't just.
    #[error("the helper of node {0} isn't just")]
    UnfairHelper(u32),
    /// A group isn't compassionate.
    #[error("a group of node {0} isn't compassionate")]
    NotCompassionate(u32),
    /// The node has neither a helper nor a group.
    #[error("node {0} has no helper and no group")]
    NoHelper(u32),
    #[error("out of memory")]
    Memory,
}
