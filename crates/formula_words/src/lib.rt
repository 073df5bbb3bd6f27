//! Formulas, states and the parts of a program as people write them: names in place of numbers, constants folded, each
//! comparison with the positive terms on its own side, and `->` for what was typed from an implication.
#![tactic(auto)]

mod comparisons;
mod formulas;
mod phrases;
mod sums;
mod vocabulary;

pub use formulas::formula;
pub use sums::sum;
pub use vocabulary::{Vocabulary, value};
