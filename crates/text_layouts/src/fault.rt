//! Why a text isn't laid out.

use st_memory::Memory;
use st_tokens::TokenFault;
use thiserror::Error;

/// Why a text isn't laid out.
#[derive(Clone, Copy, Debug, PartialEq, Eq, Error)]
pub enum LayoutFault {
    /// The place where no token stands.
    #[error("{0}")]
    Token(TokenFault),
    #[error("memory was refused")]
    Memory,
}

impl From<Memory> for LayoutFault {
    ghost use Rattle.std.specs.Prelude.{◌≡◌};
    ghost use Rattle.text_layouts.specs.declared.fault.LayoutFault.TheVariants as faults;

    ghost from_gives = { λ _ fault. fault ≡ faults.Memory };

    fn from(_: Memory) -> LayoutFault {
        LayoutFault::Memory
    }
}
