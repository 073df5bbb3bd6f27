//! What can go wrong where facts are looked for.

use st_memory::Memory;
use std::alloc::{AllocError, AllocFailed};
use thiserror::Error;

/// Why no facts are found.
#[derive(Clone, Copy, Debug, PartialEq, Eq, Error)]
pub enum FactFault {
    /// There are more than 2^16 candidates.
    #[error("there are too many values of variables to try at each location")]
    Many,
    /// Memory was asked for and refused.
    #[error("out of memory")]
    Memory,
}

impl From<AllocError> for FactFault {
    fn from(_: AllocError) -> Self {
        FactFault::Memory
    }
}

impl<T: Drop> From<AllocFailed<T>> for FactFault {
    fn from(_: AllocFailed<T>) -> Self {
        FactFault::Memory
    }
}

impl From<Memory> for FactFault {
    fn from(_: Memory) -> Self {
        FactFault::Memory
    }
}
