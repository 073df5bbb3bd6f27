//! States as they are shown to people: what holds in one, what may be done from one, and the state behind a step.
#![tactic(auto)]

mod controls;
mod enabling;
mod pictures;
mod stores;
mod successors;

pub use pictures::Picture;
pub use search_verdicts::Shown;
