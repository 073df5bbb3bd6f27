//! Whether a certificate is valid for a condition: exact, and a yes means that the condition holds.
#![tactic(auto)]

mod checking;
mod closing;
pub mod decisions;
mod division;
pub mod leaves;
pub mod problems;
pub mod splits;

pub use checking::check;
pub use control_states::{Alternative, Component, Components};
pub use farkas_leaf::{leaf_closes, linear_closes};
pub use st_certificate::Certificate;
pub use st_form::{Condition, Variable};
