//! The words of a program's text: what its variables, locations, statements and components are called in reports.
#![tactic(auto)]

mod words;

pub use formula_words::Vocabulary;
pub use words::text_words;
