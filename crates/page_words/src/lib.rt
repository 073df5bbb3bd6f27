//! What the pages say of a word: of the kind of a fault, of a reason, of a status.
#![tactic(auto)]

mod faults_page;
mod marks;
mod sayings;
mod statuses_page;

pub use sayings::{known_words, nearest_word, said_of};
