//! Why the steps of a state can't be had.

use st_memory::Memory;
use std::alloc::{AllocError, AllocFailed};
use thiserror::Error;

/// Why there is no list of steps.
#[derive(Clone, Copy, Debug, PartialEq, Eq, Error)]
pub enum MoveFault {
    /// A number on the way to the value of a test or a right side is of size 2^126 or more.
    #[error("a number on the way to a value is too large")]
    ValueLimit,
    /// Memory was asked for and refused.
    #[error("out of memory")]
    Memory,
}

impl From<AllocError> for MoveFault {
    ghost use Rattle.std.specs.Prelude.{◌≡◌};
    ghost use Rattle.spl_semantics.specs.declared.faults.MoveFault.TheVariants as faults;

    ghost from_gives = { λ _ fault. fault ≡ faults.Memory };

    fn from(_: AllocError) -> Self {
        MoveFault::Memory
    }
}

impl<T: Drop> From<AllocFailed<T>> for MoveFault {
    ghost use Rattle.std.specs.Prelude.{◌≡◌};
    ghost use Rattle.spl_semantics.specs.declared.faults.MoveFault.TheVariants as faults;

    ghost from_gives = { λ _ fault. fault ≡ faults.Memory };

    fn from(_: AllocFailed<T>) -> Self {
        MoveFault::Memory
    }
}

impl From<Memory> for MoveFault {
    ghost use Rattle.std.specs.Prelude.{◌≡◌};
    ghost use Rattle.spl_semantics.specs.declared.faults.MoveFault.TheVariants as faults;

    ghost from_gives = { λ _ fault. fault ≡ faults.Memory };

    fn from(_: Memory) -> Self {
        MoveFault::Memory
    }
}
