//! The grammar of formulas, as raw trees.
#![tactic(auto)]

mod expr;
pub mod laws;
mod limits;
mod raw;
mod sign;

pub use expr::{expression, sum};
pub use limits::LEVELS;
pub use raw::{Operator, RawExpr, RawExprKind, RawTerm};
pub use st_reading::{ParseFault, RawName};
