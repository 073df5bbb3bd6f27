//! Why a clause has no text.

use control_cubes::CubeFault;
use st_linear::LinFault;
use st_memory::Memory;
use std::alloc::{AllocError, AllocFailed};
use thiserror::Error;

#[derive(Clone, Copy, Debug, PartialEq, Eq, Error)]
pub enum ClauseFault {
    /// A place that has to be named has no label, or a number is too large.
    #[error("a clause can't be said")]
    Unsaid,
    /// Memory was asked for and refused.
    #[error("out of memory")]
    Memory,
}

impl From<CubeFault> for ClauseFault {
    fn from(fault: CubeFault) -> Self {
        match fault {
            CubeFault::TooLarge => ClauseFault::Unsaid,
            CubeFault::Memory => ClauseFault::Memory,
        }
    }
}

impl From<LinFault> for ClauseFault {
    fn from(fault: LinFault) -> Self {
        match fault {
            LinFault::TooLarge => ClauseFault::Unsaid,
            LinFault::Memory => ClauseFault::Memory,
        }
    }
}

impl From<Memory> for ClauseFault {
    fn from(_: Memory) -> Self {
        ClauseFault::Memory
    }
}

impl From<AllocError> for ClauseFault {
    fn from(_: AllocError) -> Self {
        ClauseFault::Memory
    }
}

impl<T: Drop> From<AllocFailed<T>> for ClauseFault {
    fn from(_: AllocFailed<T>) -> Self {
        ClauseFault::Memory
    }
}
