//! What comes of a search for a proof.

use proof_script::ScriptFault;
use spl_parser::ParseFault;
use spl_typer::TypeFault;
use st_memory::Memory;
use std::alloc::{AllocError, AllocFailed};
use thiserror::Error;

/// Why nothing is known of a goal.
#[derive(Clone, Copy, Debug, PartialEq, Eq)]
pub enum Unfound {
    /// As many queries as are allowed were asked.
    Budget,
    /// A condition was too wide to be decided, or a number too large.
    Wide,
    /// There would be more levels than may be.
    Levels,
    /// No chain was found for a response.
    Chain,
}

/// A goal of which nothing is known.
#[derive(Drop)]
pub struct Missing {
    pub goal: String,
    pub why: Unfound,
    /// The states that were left to be excluded, as a formula, where there were some.
    pub left: Option<Vec<u8>>,
    /// The text up to the goal, with what was found.
    pub so_far: Vec<u8>,
}

/// A text in which each goal has a proof.
#[derive(Drop)]
pub struct Proposal {
    /// The name of the first goal that was asked for.
    pub goal: String,
    pub text: Vec<u8>,
}

/// A goal that fails.
#[derive(Drop)]
pub struct Failing {
    pub goal: String,
    /// The step that claims it, a proof text of its own.
    pub proof: Vec<u8>,
    /// The schedule of a run on which it fails.
    pub schedule: Vec<u8>,
}

/// What is found of the goals of a text.
#[derive(Drop)]
pub enum Found {
    Proof(Proposal),
    False(Failing),
    NotFound(Missing),
}

/// Why nothing is looked for.
#[derive(Clone, Copy, Debug, PartialEq, Eq, Error)]
pub enum FindFault {
    /// The text of the program isn't one of the grammar.
    #[error("{0}")]
    Grammar(ParseFault),
    /// The program breaks a rule of typing.
    #[error("{0}")]
    Typing(TypeFault),
    /// The proof's text is refused.
    #[error("{0}")]
    Proof(ScriptFault),
    /// Memory was asked for and refused.
    #[error("out of memory")]
    Memory,
}

impl From<ParseFault> for FindFault {
    fn from(fault: ParseFault) -> Self {
        match fault {
            ParseFault::Memory => FindFault::Memory,
            _ => FindFault::Grammar(fault),
        }
    }
}

impl From<TypeFault> for FindFault {
    fn from(fault: TypeFault) -> Self {
        match fault {
            TypeFault::Memory => FindFault::Memory,
            _ => FindFault::Typing(fault),
        }
    }
}

impl From<ScriptFault> for FindFault {
    fn from(fault: ScriptFault) -> Self {
        match fault {
            ScriptFault::Memory => FindFault::Memory,
            ScriptFault::At(_, _) => FindFault::Proof(fault),
        }
    }
}

impl From<Memory> for FindFault {
    fn from(_: Memory) -> Self {
        FindFault::Memory
    }
}

impl From<AllocError> for FindFault {
    fn from(_: AllocError) -> Self {
        FindFault::Memory
    }
}

impl<T: Drop> From<AllocFailed<T>> for FindFault {
    fn from(_: AllocFailed<T>) -> Self {
        FindFault::Memory
    }
}
