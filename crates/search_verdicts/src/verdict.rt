//! What the search says of a condition.

use control_states::Alternative;
use elimination_laws::WideStage;
use st_certificate::Certificate;
use st_program::Datum;

/// What a step of a path divides a problem by: the alternatives of a component, the values of a boolean variable, or the
/// disjuncts of a disjunction.
#[derive(Clone, Copy, Debug, PartialEq, Eq)]
pub enum PathKind {
    Case,
    Bool,
    Split,
}

/// A step of a path: by which component, variable or disjunction, and which of the problems is meant. All count from 0.
#[derive(Clone, Copy, Debug, PartialEq, Eq)]
pub struct PathStep {
    pub kind: PathKind,
    pub number: u32,
    pub branch: u32,
}

/// A state: what each active component is at, by rising number, and the value of each variable.
#[derive(Drop)]
pub struct Shown {
    pub control: Vec<(u32, Alternative)>,
    pub store: Vec<Datum>,
}

/// What the search says of a condition.
#[derive(Drop)]
pub enum Verdict {
    /// The condition holds, by this certificate.
    Valid(Certificate),
    /// The problem that the path leads to has no contradiction; with a state in which the condition is false, if one is
    /// known.
    Open(Vec<PathStep>, Option<Shown>),
    /// The search gave up at the problem that the path leads to.
    Wide(Vec<PathStep>, WideStage),
}
