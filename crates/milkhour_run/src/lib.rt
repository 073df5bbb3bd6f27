//! What `milkhour` promises of its answers: they are those of `step` over the texts that were read.
#![tactic(auto)]

mod answering;
mod held_texts;
mod question;
mod step_words_of;

pub use answering::answer;
pub use held_texts::Texts;
pub use question::Question;
pub use step_answers::{Answer, Status};
