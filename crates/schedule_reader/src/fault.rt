//! Why no schedule is read. Each fault has the place that is named: a byte offset from 0.

ghost use Rattle.std.specs.Prelude.{◌≡◌};
ghost use Rattle.schedule_reader.specs.declared.fault.ScheduleFault.TheVariants as faults;

use st_memory::Memory;
use st_reading::ParseFault;
use st_tokens::TokenFault;
use std::alloc::{AllocError, AllocFailed};
use thiserror::Error;

/// The first fault of a schedule.
#[derive(Clone, Copy, Debug, PartialEq, Eq, Error)]
pub enum ScheduleFault {
    #[error(transparent)]
    Token(TokenFault),
    /// No schedule goes on so.
    #[error("syntax at {0}")]
    Syntax(u64),
    /// No variable has this name.
    #[error("unknown name at {0}")]
    Unknown(u64),
    /// The variable was set before.
    #[error("set twice at {0}")]
    Twice(u64),
    /// The value isn't of the variable's type.
    #[error("wrong type at {0}")]
    WrongType(u64),
    /// A variable isn't set where the moves begin.
    #[error("unset variable at {0}")]
    Unset(u64),
    /// The move names no transition.
    #[error("unknown transition at {0}")]
    UnknownTransition(u64),
    /// There are 1,000 moves before this one.
    #[error("too many moves at {0}")]
    Moves(u64),
    #[error("out of memory")]
    Memory,
}

impl From<ParseFault> for ScheduleFault {
    ghost use Rattle.st_reading.specs.Breaches.{Takes};
    ghost use Rattle.schedule_reader.specs.Faults.{see};

    ghost from_gives = { λ e fault. Takes e (see fault) };

    fn from(fault: ParseFault) -> Self {
        match fault {
            ParseFault::Syntax(place) => ScheduleFault::Syntax(place),
            ParseFault::Token(fault) => ScheduleFault::Token(fault),
            // Schedules pass no limit of expressions.
            ParseFault::Limit(_, place) => ScheduleFault::Syntax(place),
            ParseFault::Memory => ScheduleFault::Memory,
        }
    }
}

impl From<AllocError> for ScheduleFault {
    ghost from_gives = { λ _ e. e ≡ faults.Memory };

    fn from(_: AllocError) -> ScheduleFault {
        ScheduleFault::Memory
    }
}

impl<T: Drop> From<AllocFailed<T>> for ScheduleFault {
    ghost from_gives = { λ _ e. e ≡ faults.Memory };

    fn from(_: AllocFailed<T>) -> ScheduleFault {
        ScheduleFault::Memory
    }
}

impl From<Memory> for ScheduleFault {
    ghost from_gives = { λ _ e. e ≡ faults.Memory };

    fn from(_: Memory) -> ScheduleFault {
        ScheduleFault::Memory
    }
}
