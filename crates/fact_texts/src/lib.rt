//! Facts of the form "where control is at these locations, this variable has this value", as the steps of a proof text.
#![tactic(auto)]

mod groups;
mod sentences;
mod subject;
mod texts;

pub use texts::{FactTexts, fact_texts};
