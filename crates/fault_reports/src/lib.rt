//! Why a program, a proof or a schedule is refused, for people: the line, what was found there and what may stand there, where
//! the first of two stands, which name is near, and help. The kind and the place are those that the readers answer.
#![tactic(auto)]

mod accepted;
mod advice;
mod asking;
mod claims;
mod comments;
mod computing;
mod describing;
mod expected;
mod finding;
mod glancing;
mod goals;
mod labels;
mod lemmas;
mod meant;
mod mending;
mod names;
mod reading;
mod refusal;
mod source;
mod starts;
mod syntax;
mod texts;
mod told;
mod transitions;
mod trials;
mod units;

pub use accepted::warnings;
pub use finding::{faults_of_program, faults_of_proof, faults_of_schedule};
pub use goals::{goals_refused, uncited};
pub use proof_reports::{Fault, Severity};
pub use source::TextFile;
