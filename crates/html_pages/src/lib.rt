//! Reports as pages in HTML, each in one file that needs nothing from elsewhere and runs no script.
//!
//! Programs and proofs come from strangers: whatever is theirs is written by `html_escapes` alone. A page forbids browsers to load
//! or to run anything, and holds its drawing as data.
#![tactic(auto)]

mod equations;
mod failures;
mod frame;
mod page;
mod plain;
mod proofs;
mod runs;
mod sources;
mod spots;
mod states;
mod steps;
mod turns;

pub use equations::equation_page;
pub use plain::text_page;
pub use proofs::{PageTexts, proof_page};
pub use runs::run_page;
