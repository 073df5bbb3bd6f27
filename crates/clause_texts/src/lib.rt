//! Clauses, the complements of cubes, as a person writes them in a proof text.
#![tactic(auto)]

mod clauses;
mod fault;
mod filling;
mod labels;
mod literals;
mod phrases;
mod rows;
mod states;
mod whereabouts;
mod writer;

pub use fault::ClauseFault;
pub use filling::Sentence;
pub use literals::Literal;
pub use phrases::{Phrase, Shape};
pub use rows::{Comparison, row_text};
pub use whereabouts::Whereabouts;
pub use writer::ClauseWriter;
