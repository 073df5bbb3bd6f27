//! The search for certificates: of a condition a certificate, or a problem that is left open, or where it gave up.
//!
//! Problems are walked depth first: components are decided, then boolean variables, then disjunctions are split, and at
//! last the lines are eliminated. It is a case analysis with Fourier-Motzkin elimination at its leaves (Schrijver,
//! *Theory of Linear and Integer Programming*, 1986, section 12.2).
#![tactic(auto)]

mod conjuncts;
mod deciding;
mod decisions;
mod divisions;
mod entries;
mod failure;
mod guards;
mod joining;
mod literals;
mod moves;
mod problems;
mod sameness;
mod shown;
mod touching;
mod walk;

pub use control_states::{Alternative, Component, Components};
pub use deciding::{decide, unless_valid};
pub use entries::look_at_condition;
pub use guards::is_condition_below;
pub use sameness::is_found;
pub use search_verdicts::{PathKind, PathStep, Shown, Verdict, WideStage};
pub use shared_search::Book;
pub use st_certificate::Certificate;
pub use st_form::{Condition, Variable};
pub use st_program::Datum;
