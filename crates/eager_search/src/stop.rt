//! Why a search ends without a certificate.

use st_linear::LinFault;
use st_memory::Memory;
use std::alloc::{AllocError, AllocFailed};

/// Nothing is found, or memory was asked for and refused.
#[derive(Clone, Copy, Debug, PartialEq, Eq)]
pub(crate) enum Stop {
    Unfound,
    Memory,
}

impl From<Memory> for Stop {
    fn from(_: Memory) -> Self {
        Stop::Memory
    }
}

impl From<LinFault> for Stop {
    fn from(fault: LinFault) -> Self {
        match fault {
            LinFault::TooLarge => Stop::Unfound,
            LinFault::Memory => Stop::Memory,
        }
    }
}

impl From<AllocError> for Stop {
    fn from(_: AllocError) -> Self {
        Stop::Memory
    }
}

impl<T: Drop> From<AllocFailed<T>> for Stop {
    fn from(_: AllocFailed<T>) -> Self {
        Stop::Memory
    }
}
