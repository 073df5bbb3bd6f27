//! Why nodes make no net.

use st_memory::Memory;
use thiserror::Error;

/// Why nodes make no net. The number is the node's, from 0. At one node the fault that stands first here is named.
#[derive(Error, Debug, Clone, Copy, PartialEq, Eq)]
pub enum NetFault {
    /// The helper isn't just.
    #[error("the helper of node {0} isn't just")]
    UnfairHelper(u32),
    /// The group isn't compassionate.
    #[error("the group of node {0} isn't compassionate")]
    NotCompassionate(u32),
    /// The node has neither a helper nor a group.
    #[error("node {0} has no helper and no group")]
    NoHelper(u32),
    #[error("out of memory")]
    Memory,
}

impl From<Memory> for NetFault {
    ghost use Rattle.std.specs.Prelude.{◌≡◌};
    ghost use Rattle.ranked_net.specs.declared.faults.NetFault.TheVariants as faults;

    ghost from_gives = { λ _ fault. fault ≡ faults.Memory };

    fn from(_: Memory) -> Self {
        NetFault::Memory
    }
}
