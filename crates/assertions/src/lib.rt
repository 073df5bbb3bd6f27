//! Formulas and integer expressions of proofs, from tokens: read by the grammar, with `at` names, and typed by a program's
//! table of names.
#![tactic(auto)]

mod fault;
mod labels;
pub mod laws;
mod names;
mod reading;

pub use fault::FormFault;
pub use labels::{labelled, part_named};
pub use names::text_of;
pub use reading::{read_form, read_linear};
