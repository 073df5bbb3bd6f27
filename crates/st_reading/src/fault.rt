ghost use Rattle.std.specs.Prelude.{◌≡◌};
ghost use Rattle.st_reading.specs.declared.fault.ParseFault.TheVariants.{Memory};

use st_tokens::{LimitKind, TokenFault};
use std::alloc::{AllocError, AllocFailed};
use thiserror::Error;

/// The first fault of a text, with its place: a byte offset from 0.
#[derive(Clone, Copy, Debug, PartialEq, Eq, Error)]
pub enum ParseFault {
    /// No text of the grammar goes on so, or the text breaks off.
    #[error("syntax at {0}")]
    Syntax(u64),
    #[error(transparent)]
    Token(TokenFault),
    /// The limit is passed by what begins there.
    #[error("limit passed at {1}")]
    Limit(LimitKind, u64),
    #[error("out of memory")]
    Memory,
}

impl From<AllocError> for ParseFault {
    ghost from_gives = { λ _ e. e ≡ Memory };

    fn from(_: AllocError) -> ParseFault {
        ParseFault::Memory
    }
}

impl<T: Drop> From<AllocFailed<T>> for ParseFault {
    ghost from_gives = { λ _ e. e ≡ Memory };

    fn from(_: AllocFailed<T>) -> ParseFault {
        ParseFault::Memory
    }
}
