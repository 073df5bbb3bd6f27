//! What can go wrong where equations are looked for.

use st_linear::LinFault;
use st_memory::Memory;
use std::alloc::{AllocError, AllocFailed};
use thiserror::Error;

/// Why no equations are found.
#[derive(Clone, Copy, Debug, PartialEq, Eq, Error)]
pub enum FindFault {
    /// The elimination comes to a number of size 2^100 or more.
    #[error("a number on the way to the equations is too large")]
    Wide,
    /// Memory was asked for and refused.
    #[error("out of memory")]
    Memory,
}

impl From<LinFault> for FindFault {
    ghost use Rattle.linear_invariants.specs.Answers.{IsFault};

    ghost from_gives = { λ fault found. IsFault fault found };

    fn from(fault: LinFault) -> Self {
        match fault {
            LinFault::TooLarge => FindFault::Wide,
            LinFault::Memory => FindFault::Memory,
        }
    }
}

impl From<AllocError> for FindFault {
    ghost use Rattle.std.specs.Prelude.{◌≡◌};
    ghost use Rattle.linear_invariants.specs.declared.fault.FindFault.TheVariants.{Memory};

    ghost from_gives = { λ _ fault. fault ≡ Memory };

    fn from(_: AllocError) -> Self {
        FindFault::Memory
    }
}

impl<T: Drop> From<AllocFailed<T>> for FindFault {
    ghost use Rattle.std.specs.Prelude.{◌≡◌};
    ghost use Rattle.linear_invariants.specs.declared.fault.FindFault.TheVariants.{Memory};

    ghost from_gives = { λ _ fault. fault ≡ Memory };

    fn from(_: AllocFailed<T>) -> Self {
        FindFault::Memory
    }
}

impl From<Memory> for FindFault {
    ghost use Rattle.std.specs.Prelude.{◌≡◌};
    ghost use Rattle.linear_invariants.specs.declared.fault.FindFault.TheVariants.{Memory};

    ghost from_gives = { λ _ fault. fault ≡ Memory };

    fn from(_: Memory) -> Self {
        FindFault::Memory
    }
}
