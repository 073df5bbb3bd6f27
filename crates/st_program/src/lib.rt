//! Typed programs of the Simple Programming Language: their trees, what is left of them to run, and their names.
#![tactic(auto)]

mod names;
pub mod programs;
pub mod residuals;
mod search;
pub mod trees;

pub use names::NameTable;
pub use programs::Program;
pub use residuals::{Datum, Residual, State};
pub use st_form::Variable;
pub use trees::{Child, Inner, Kind, Stmt, Value};
