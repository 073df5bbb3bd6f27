//! Whether a certificate is valid, checked over lists of conjuncts by number.
//!
//! A problem's conjuncts are a list of a table of formulas, so each formula is read once, and what it is under a decision is
//! found once for all problems that have it. `farkas_check` says what is valid. Where the table is full nothing is said.
#![tactic(auto)]

pub mod cases;
mod checking;
mod closing;
pub mod leaves;
pub mod problems;
pub mod splits;
pub mod values;

pub use checking::check;
