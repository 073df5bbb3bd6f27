//! Why there is no new list.

use st_linear::LinFault;
use st_memory::Memory;
use std::alloc::{AllocError, AllocFailed};

/// The picks of a contradiction, a number out of range, or want of memory.
#[derive(Drop)]
pub(crate) enum Halt {
    Clash(Vec<(u32, i64)>),
    Wide,
    Memory,
}

impl From<AllocError> for Halt {
    ghost use Rattle.std.specs.Prelude.{◌≡◌};
    ghost use Rattle.row_elimination.specs.declared.halt.Halt.TheVariants.{Memory};

    ghost from_gives = { λ _ halt. halt ≡ Memory };

    fn from(_: AllocError) -> Self {
        Halt::Memory
    }
}

impl<T: Drop> From<AllocFailed<T>> for Halt {
    ghost use Rattle.std.specs.Prelude.{◌≡◌};
    ghost use Rattle.row_elimination.specs.declared.halt.Halt.TheVariants.{Memory};

    ghost from_gives = { λ _ halt. halt ≡ Memory };

    fn from(_: AllocFailed<T>) -> Self {
        Halt::Memory
    }
}

impl From<Memory> for Halt {
    ghost use Rattle.std.specs.Prelude.{◌≡◌};
    ghost use Rattle.row_elimination.specs.declared.halt.Halt.TheVariants.{Memory};

    ghost from_gives = { λ _ halt. halt ≡ Memory };

    fn from(_: Memory) -> Self {
        Halt::Memory
    }
}

impl From<LinFault> for Halt {
    ghost use Rattle.std.specs.Prelude.{◌≡◌};
    ghost use Rattle.row_elimination.specs.Halts.{halt_of};

    ghost from_gives = { λ fault halt. halt ≡ halt_of fault };

    fn from(fault: LinFault) -> Self {
        match fault {
            LinFault::TooLarge => Halt::Wide,
            LinFault::Memory => Halt::Memory,
        }
    }
}
