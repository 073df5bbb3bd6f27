//! What can go wrong where linear forms are made.

use st_memory::Memory;
use std::alloc::{AllocError, AllocFailed};
use thiserror::Error;

/// Why a form can't be made.
#[derive(Clone, Copy, Debug, PartialEq, Eq, Error)]
pub enum LinFault {
    /// A number of the form, or of a sum or a product on the way to it, is of size 2^100 or more.
    #[error("a number of a linear form is too large")]
    TooLarge,
    /// Memory was asked for and refused.
    #[error("out of memory")]
    Memory,
}

impl From<AllocError> for LinFault {
    ghost use Rattle.std.specs.Prelude.{◌≡◌};
    ghost use Rattle.st_linear.specs.declared.faults.LinFault.TheVariants.{Memory};

    ghost from_gives = { λ _ fault. fault ≡ Memory };

    fn from(_: AllocError) -> Self {
        LinFault::Memory
    }
}

impl<T: Drop> From<AllocFailed<T>> for LinFault {
    ghost use Rattle.std.specs.Prelude.{◌≡◌};
    ghost use Rattle.st_linear.specs.declared.faults.LinFault.TheVariants.{Memory};

    ghost from_gives = { λ _ fault. fault ≡ Memory };

    fn from(_: AllocFailed<T>) -> Self {
        LinFault::Memory
    }
}

impl From<Memory> for LinFault {
    ghost use Rattle.std.specs.Prelude.{◌≡◌};
    ghost use Rattle.st_linear.specs.declared.faults.LinFault.TheVariants.{Memory};

    ghost from_gives = { λ _ fault. fault ≡ Memory };

    fn from(_: Memory) -> Self {
        LinFault::Memory
    }
}
