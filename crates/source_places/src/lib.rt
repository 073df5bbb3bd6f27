//! Where statements stand in the text of a program, and the parts of steps in that of a proof.
#![tactic(auto)]

mod chains;
mod cutting;
mod span;
mod starting;
mod statements;
mod steps;
mod tokens;

pub use chains::conjuncts;
pub use span::Span;
pub use statements::{StatementPlace, statement_places};
pub use steps::{ItemPlaces, StepPlaces, step_places};
pub use tokens::{token_at, tokens_of};
