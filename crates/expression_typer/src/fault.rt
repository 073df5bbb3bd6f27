//! What can go wrong where a program is typed.

use st_memory::Memory;
use st_tokens::LimitKind;
use std::alloc::{AllocError, AllocFailed};
use thiserror::Error;

/// Why a program is refused, and the byte place: the lowest rule, in the order of these kinds, that is broken at the
/// first place where one is.
#[derive(Clone, Copy, Debug, PartialEq, Eq, Error)]
pub enum TypeFault {
    /// A name is used as a variable that isn't known there.
    #[error("unknown name at {0}")]
    Unknown(u64),
    /// A name is declared that was declared before.
    #[error("name declared twice at {0}")]
    Twice(u64),
    /// An expression isn't of the wanted type, or a right list has another length than its left list.
    #[error("wrong type at {0}")]
    WrongType(u64),
    /// Neither side of a product is constant.
    #[error("product of two variables at {0}")]
    NonLinear(u64),
    /// A linear form has a number of size past 2^30, a group's composed right sides included.
    #[error("number too large at {0}")]
    TooLarge(u64),
    /// An input variable is changed.
    #[error("input variable changed at {0}")]
    InputAssigned(u64),
    /// A branch of a selection begins with a loop.
    #[error("loop at the head of a branch at {0}")]
    SelectHead(u64),
    /// A variable stands twice on the left.
    #[error("variable assigned twice at {0}")]
    SameTarget(u64),
    /// A group passes a limit on paths, atoms or weight. A tree that no text within the limits spells may get any kind.
    #[error("past a limit at {1}")]
    Limit(LimitKind, u64),
    /// Memory was asked for and refused.
    #[error("out of memory")]
    Memory,
}

impl From<AllocError> for TypeFault {
    ghost use Rattle.std.specs.Prelude.{◌≡◌};
    ghost use Rattle.expression_typer.specs.declared.fault.TypeFault.TheVariants.{Memory};

    ghost from_gives = { λ _ fault. fault ≡ Memory };

    fn from(_: AllocError) -> Self {
        TypeFault::Memory
    }
}

impl<T: Drop> From<AllocFailed<T>> for TypeFault {
    ghost use Rattle.std.specs.Prelude.{◌≡◌};
    ghost use Rattle.expression_typer.specs.declared.fault.TypeFault.TheVariants.{Memory};

    ghost from_gives = { λ _ fault. fault ≡ Memory };

    fn from(_: AllocFailed<T>) -> Self {
        TypeFault::Memory
    }
}

impl From<Memory> for TypeFault {
    ghost use Rattle.std.specs.Prelude.{◌≡◌};
    ghost use Rattle.expression_typer.specs.declared.fault.TypeFault.TheVariants as faults;

    ghost from_gives = { λ _ fault. fault ≡ faults.Memory };

    fn from(_: Memory) -> Self {
        TypeFault::Memory
    }
}
