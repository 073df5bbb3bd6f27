//! The grammar of programs, as raw trees.
#![tactic(auto)]

mod begun;
mod bodies;
mod declaration;
mod item;
pub mod laws;
mod limits;
mod lists;
mod made;
mod program;
mod raw;
mod sign;
mod statement;

pub use expression_parser::{LEVELS, Operator, RawExpr, RawExprKind, RawTerm, expression, sum};
pub use program::parse_program;
pub use raw::{RawBody, RawDeclaration, RawKind, RawProcess, RawProgram, RawStatement};
pub use st_reading::{ParseFault, RawName};
