//! Linear equations between variables and locations as formulas, and as the steps of a proof text.
//!
//! What the formula of an equation is, and that it is true exactly where the equation holds, stands in `equation_forms`.
#![tactic(auto)]

mod cases;
mod classes;
mod forms;
pub mod laws;
mod limits;
mod sentences;
mod sums;
mod texts;

pub use forms::form_of;
pub use linear_invariants::Equation;
pub use sentences::{push_left_out, sentence};
