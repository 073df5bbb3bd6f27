//! Why a condition isn't appended.

use st_memory::Memory;
use thiserror::Error;

/// Why a condition isn't appended. The limits are looked at in the order of the variants.
#[derive(Error, Debug, Clone, Copy, PartialEq, Eq)]
pub enum VcFault {
    /// The list holds 20,000 conditions.
    #[error("too many conditions")]
    TooMany,
    /// The condition would have more than 2,048 atoms.
    #[error("too many atoms in a condition")]
    TooWide,
    /// The list would weigh more than 2^24 with the condition.
    #[error("the conditions are too heavy")]
    TooHeavy,
    #[error("out of memory")]
    Memory,
}

impl From<Memory> for VcFault {
    ghost use Rattle.std.specs.Prelude.{◌≡◌};
    ghost use Rattle.vc_generator.specs.declared.faults.VcFault.TheVariants as faults;

    ghost from_gives = { λ _ fault. fault ≡ faults.Memory };

    fn from(_: Memory) -> Self {
        VcFault::Memory
    }
}
