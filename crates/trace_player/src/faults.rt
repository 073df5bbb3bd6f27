//! Why a schedule can't be played.

use st_memory::Memory;
use std::alloc::{AllocError, AllocFailed};
use thiserror::Error;

/// Why there is no run. Positions and moves count from 0.
#[derive(Clone, Copy, Debug, PartialEq, Eq, Error)]
pub enum PlayFault {
    /// The initial condition doesn't hold in the store.
    #[error("no run begins so")]
    NoStart,
    /// In the state at this position a number on the way to a value is of size 2^126 or more.
    #[error("a number is too large at position {0}")]
    ValueLimit(u32),
    /// This move isn't enabled.
    #[error("move {0} isn't enabled")]
    Illegal(u32),
    #[error("out of memory")]
    Memory,
}

impl From<AllocError> for PlayFault {
    ghost use Rattle.std.specs.Prelude.{◌≡◌};
    ghost use Rattle.trace_player.specs.declared.faults.PlayFault.TheVariants as faults;

    ghost from_gives = { λ _ fault. fault ≡ faults.Memory };

    fn from(_: AllocError) -> Self {
        PlayFault::Memory
    }
}

impl<T: Drop> From<AllocFailed<T>> for PlayFault {
    ghost use Rattle.std.specs.Prelude.{◌≡◌};
    ghost use Rattle.trace_player.specs.declared.faults.PlayFault.TheVariants as faults;

    ghost from_gives = { λ _ fault. fault ≡ faults.Memory };

    fn from(_: AllocFailed<T>) -> Self {
        PlayFault::Memory
    }
}

impl From<Memory> for PlayFault {
    ghost use Rattle.std.specs.Prelude.{◌≡◌};
    ghost use Rattle.trace_player.specs.declared.faults.PlayFault.TheVariants as faults;

    ghost from_gives = { λ _ fault. fault ≡ faults.Memory };

    fn from(_: Memory) -> Self {
        PlayFault::Memory
    }
}
