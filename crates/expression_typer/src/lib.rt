//! The typing rules of expressions: raw expressions to linear forms and formulas, by what their names stand for.
#![tactic(auto)]

mod expr;
mod fault;
pub mod laws;
mod linear;
mod scope;

pub use expr::{as_number, as_truth, truth, typed_by, typed_expression};
pub use fault::TypeFault;
pub use linear::written;
pub use scope::{Known, Naming, find};
