//! Why no diagram is read. Each fault has the place that is named: a byte offset from 0.

ghost use Rattle.std.specs.Prelude.{◌≡◌};
ghost use Rattle.diagram_reader.specs.declared.fault.DiagramFault.TheVariants.{Memory};

use assertions::FormFault;
use st_reading::ParseFault;
use std::alloc::{AllocError, AllocFailed};
use thiserror::Error;

/// The first fault of a diagram.
#[derive(Clone, Copy, Debug, PartialEq, Eq, Error)]
pub enum DiagramFault {
    /// No diagram goes on so (1).
    #[error("syntax at {0}")]
    Syntax(u64),
    /// No node has this number, or in a wait diagram no level of the goal (2).
    #[error("unknown node at {0}")]
    UnknownNode(u64),
    /// No transition is named so (3).
    #[error("unknown transition at {0}")]
    UnknownTransition(u64),
    /// A node's number is 0 or an earlier node's, or the terminal node was given before (4).
    #[error("given twice at {0}")]
    Twice(u64),
    /// An edge leads upward (5).
    #[error("upward edge at {0}")]
    Upward(u64),
    /// There is no terminal node (6).
    #[error("no terminal node at {0}")]
    NoTerminal(u64),
    /// A helper isn't just (7).
    #[error("helper that isn't just at {0}")]
    UnfairHelper(u64),
    /// A node of a chain or rank diagram has no helper (8).
    #[error("no helper at {0}")]
    NoHelper(u64),
    /// There are 64 nodes before this one (9).
    #[error("too many nodes at {0}")]
    Nodes(u64),
    /// The fault of a formula or of an integer expression, or a token fault anywhere (10).
    #[error(transparent)]
    Form(FormFault),
    /// Memory was asked for and refused.
    #[error("out of memory")]
    Memory,
}

impl From<FormFault> for DiagramFault {
    ghost use Rattle.std.specs.Prelude.{◌≡◌};
    ghost use Rattle.std.specs.Option.{option_map};
    ghost use Rattle.assertions.specs.Faults as forms;
    ghost use Rattle.diagram_reader.specs.Faults.{see, of_form};

    ghost from_gives = { λ e fault. see fault ≡ option_map of_form (forms.see e) };

    fn from(fault: FormFault) -> Self {
        match fault {
            FormFault::Memory => DiagramFault::Memory,
            fault => DiagramFault::Form(fault),
        }
    }
}

impl From<ParseFault> for DiagramFault {
    ghost use Rattle.st_reading.specs.Breaches.{Takes};
    ghost use Rattle.diagram_reader.specs.Faults.{see};

    ghost from_gives = { λ e fault. Takes e (see fault) };

    fn from(fault: ParseFault) -> Self {
        match fault {
            ParseFault::Syntax(place) => DiagramFault::Syntax(place),
            ParseFault::Token(fault) => DiagramFault::Form(FormFault::Token(fault)),
            // No limit is passed between formulas.
            ParseFault::Limit(_, place) => DiagramFault::Form(FormFault::Nesting(place)),
            ParseFault::Memory => DiagramFault::Memory,
        }
    }
}

impl From<AllocError> for DiagramFault {
    ghost from_gives = { λ _ e. e ≡ Memory };

    fn from(_: AllocError) -> DiagramFault {
        DiagramFault::Memory
    }
}

impl<T: Drop> From<AllocFailed<T>> for DiagramFault {
    ghost from_gives = { λ _ e. e ≡ Memory };

    fn from(_: AllocFailed<T>) -> DiagramFault {
        DiagramFault::Memory
    }
}
