//! What can go wrong where cubes are made.

use st_linear::LinFault;
use st_memory::Memory;
use std::alloc::{AllocError, AllocFailed};
use thiserror::Error;

/// Why a cube can't be made.
#[derive(Clone, Copy, Debug, PartialEq, Eq, Error)]
pub enum CubeFault {
    /// A number of a row grows too large, or a component has more than 128 places.
    #[error("a cube is too large")]
    TooLarge,
    /// Memory was asked for and refused.
    #[error("out of memory")]
    Memory,
}

impl From<LinFault> for CubeFault {
    fn from(fault: LinFault) -> Self {
        match fault {
            LinFault::TooLarge => CubeFault::TooLarge,
            LinFault::Memory => CubeFault::Memory,
        }
    }
}

impl From<AllocError> for CubeFault {
    fn from(_: AllocError) -> Self {
        CubeFault::Memory
    }
}

impl<T: Drop> From<AllocFailed<T>> for CubeFault {
    fn from(_: AllocFailed<T>) -> Self {
        CubeFault::Memory
    }
}

impl From<Memory> for CubeFault {
    fn from(_: Memory) -> Self {
        CubeFault::Memory
    }
}
