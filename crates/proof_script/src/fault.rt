//! Why no script is read. Each fault has a kind and a place: a byte offset from 0.

ghost use Rattle.std.specs.Prelude.{◌≡◌};
ghost use Rattle.proof_script.specs.declared.fault.ScriptFault.TheVariants.{Memory};

use assertions::FormFault;
use diagram_reader::DiagramFault;
use st_reading::ParseFault;
use st_tokens::{LimitKind, TokenFault};
use std::alloc::{AllocError, AllocFailed};
use thiserror::Error;

/// What is wrong. At one place the kind that stands first here is told.
#[derive(Clone, Copy, Debug, PartialEq, Eq)]
pub enum ScriptKind {
    /// No script goes on so.
    Syntax,
    /// A byte that begins no token.
    BadByte,
    /// A numeral past 2^30.
    LongNumber,
    /// A name that is none of the program's variables or, behind `at`, of its labels.
    Unknown,
    /// An expression that isn't of the wanted type.
    WrongType,
    /// A product of which neither side is constant.
    NonLinear,
    /// A linear form with a number of size past 2^30.
    TooLarge,
    /// A step's name that an earlier step has; a node's number that is 0 or an earlier node's; a second terminal node.
    Twice,
    /// A cited name that no earlier step has.
    UnknownLemma,
    /// A cited name of an earlier step that isn't an invariance.
    NotInvariant,
    /// Another number of levels than the goal has formulas behind `==>`, at their `by`.
    WrongCount,
    /// A name of no transition.
    UnknownTransition,
    /// An edge's numeral that is no node's; in a wait diagram a node's number that is no level of the goal.
    UnknownNode,
    /// An edge that leads upward.
    Upward,
    /// A drawing without a terminal node, at its end.
    NoTerminal,
    /// A helper that isn't just.
    UnfairHelper,
    /// A group that isn't compassionate.
    NotCompassionate,
    /// A node of a chain or rank diagram without helper; a node of a net with neither group nor helper.
    NoHelper,
    /// A limit that is passed: nesting, or the number of nodes, levels or formulas.
    Limit(LimitKind),
}

/// The first fault of a script.
#[derive(Clone, Copy, Debug, PartialEq, Eq, Error)]
pub enum ScriptFault {
    #[error("{0:?} at {1}")]
    At(ScriptKind, u64),
    /// Memory was asked for and refused.
    #[error("out of memory")]
    Memory,
}

impl From<TokenFault> for ScriptFault {
    ghost use Rattle.std.specs.Prelude.{◌≡◌, Some};
    ghost use Rattle.st_reading.specs.Reading.{broken};
    ghost use Rattle.proof_script.specs.Faults.{see};

    ghost from_gives = { λ e fault. see fault ≡ Some (broken e) };

    fn from(fault: TokenFault) -> Self {
        match fault {
            TokenFault::BadByte(place) => ScriptFault::At(ScriptKind::BadByte, place),
            TokenFault::LongNumber(place) => ScriptFault::At(ScriptKind::LongNumber, place),
        }
    }
}

impl From<ParseFault> for ScriptFault {
    ghost use Rattle.st_reading.specs.Breaches.{Takes};
    ghost use Rattle.proof_script.specs.Faults.{see};

    ghost from_gives = { λ e fault. Takes e (see fault) };

    fn from(fault: ParseFault) -> Self {
        match fault {
            ParseFault::Syntax(place) => ScriptFault::At(ScriptKind::Syntax, place),
            ParseFault::Token(fault) => ScriptFault::from(fault),
            ParseFault::Limit(kind, place) => ScriptFault::At(ScriptKind::Limit(kind), place),
            ParseFault::Memory => ScriptFault::Memory,
        }
    }
}

impl From<FormFault> for ScriptFault {
    ghost use Rattle.proof_script.specs.Faults.{IsForming};

    ghost from_gives = { IsForming };

    fn from(fault: FormFault) -> Self {
        let (kind, place) = match fault {
            FormFault::Syntax(place) => (ScriptKind::Syntax, place),
            FormFault::Unknown(place) => (ScriptKind::Unknown, place),
            FormFault::WrongType(place) => (ScriptKind::WrongType, place),
            FormFault::NonLinear(place) => (ScriptKind::NonLinear, place),
            FormFault::TooLarge(place) => (ScriptKind::TooLarge, place),
            FormFault::Token(fault) => return ScriptFault::from(fault),
            FormFault::Nesting(place) => (ScriptKind::Limit(LimitKind::Nesting), place),
            FormFault::Memory => return ScriptFault::Memory,
        };
        ScriptFault::At(kind, place)
    }
}

impl From<DiagramFault> for ScriptFault {
    ghost use Rattle.proof_script.specs.Faults.{IsDrawing};

    ghost from_gives = { IsDrawing };

    fn from(fault: DiagramFault) -> Self {
        let (kind, place) = match fault {
            DiagramFault::Syntax(place) => (ScriptKind::Syntax, place),
            DiagramFault::UnknownNode(place) => (ScriptKind::UnknownNode, place),
            DiagramFault::UnknownTransition(place) => (ScriptKind::UnknownTransition, place),
            DiagramFault::Twice(place) => (ScriptKind::Twice, place),
            DiagramFault::Upward(place) => (ScriptKind::Upward, place),
            DiagramFault::NoTerminal(place) => (ScriptKind::NoTerminal, place),
            DiagramFault::UnfairHelper(place) => (ScriptKind::UnfairHelper, place),
            DiagramFault::NoHelper(place) => (ScriptKind::NoHelper, place),
            DiagramFault::Nodes(place) => (ScriptKind::Limit(LimitKind::Nodes), place),
            DiagramFault::Form(fault) => return ScriptFault::from(fault),
            DiagramFault::Memory => return ScriptFault::Memory,
        };
        ScriptFault::At(kind, place)
    }
}

impl From<AllocError> for ScriptFault {
    ghost from_gives = { λ _ e. e ≡ Memory };

    fn from(_: AllocError) -> ScriptFault {
        ScriptFault::Memory
    }
}

impl<T: Drop> From<AllocFailed<T>> for ScriptFault {
    ghost from_gives = { λ _ e. e ≡ Memory };

    fn from(_: AllocFailed<T>) -> ScriptFault {
        ScriptFault::Memory
    }
}

impl From<st_memory::Memory> for ScriptFault {
    ghost from_gives = { λ _ e. e ≡ Memory };

    fn from(_: st_memory::Memory) -> ScriptFault {
        ScriptFault::Memory
    }
}
