//! Why no formula is read. A fault of the grammar (1, 6, 7) comes before all rules of typing (2 to 5); of these the lowest
//! at the first place decides.

ghost use Rattle.std.specs.Prelude.{◌≡◌};

use expression_parser::ParseFault;
use expression_typer::TypeFault;
use st_tokens::TokenFault;
use thiserror::Error;

/// Why no formula or integer expression is read, with the place of the first fault: a byte offset from 0.
#[derive(Clone, Copy, Debug, PartialEq, Eq, Error)]
pub enum FormFault {
    /// No formula goes on so (1).
    #[error("syntax at {0}")]
    Syntax(u64),
    /// The name is none of the program's variables or, behind `at`, of its labels (2).
    #[error("unknown name at {0}")]
    Unknown(u64),
    /// An expression isn't of the wanted type (3).
    #[error("wrong type at {0}")]
    WrongType(u64),
    /// Neither side of a product is constant (4).
    #[error("product of two variables at {0}")]
    NonLinear(u64),
    /// A linear form has a number of size past 2^30 (5).
    #[error("number too large at {0}")]
    TooLarge(u64),
    /// No token stands where one is wanted (6).
    #[error(transparent)]
    Token(TokenFault),
    /// More than 32 levels are open (7).
    #[error("nested too deep at {0}")]
    Nesting(u64),
    /// Memory was asked for and refused.
    #[error("out of memory")]
    Memory,
}

impl From<ParseFault> for FormFault {
    ghost use Rattle.assertions.specs.Faults.{IsSeen};

    ghost from_gives = { IsSeen };

    fn from(fault: ParseFault) -> Self {
        match fault {
            ParseFault::Syntax(place) => FormFault::Syntax(place),
            ParseFault::Token(fault) => FormFault::Token(fault),
            // The one limit of a formula.
            ParseFault::Limit(_, place) => FormFault::Nesting(place),
            ParseFault::Memory => FormFault::Memory,
        }
    }
}

impl From<TypeFault> for FormFault {
    ghost use Rattle.std.specs.Prelude.{◌≡◌};
    ghost use Rattle.assertions.specs.Faults.{from_typing};

    ghost from_gives = { λ e fault. fault ≡ from_typing e };

    fn from(fault: TypeFault) -> Self {
        match fault {
            TypeFault::Unknown(place) => FormFault::Unknown(place),
            TypeFault::WrongType(place) => FormFault::WrongType(place),
            TypeFault::NonLinear(place) => FormFault::NonLinear(place),
            TypeFault::TooLarge(place) => FormFault::TooLarge(place),
            // Of expressions want of memory alone: `laws` shows that they break no other rule.
            _ => FormFault::Memory,
        }
    }
}
