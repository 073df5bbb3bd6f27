//! One given run of a program: a schedule played by the program's steps, and the run judged.
#![tactic(auto)]

mod beginning;
mod columns;
mod counting;
mod enabling;
mod faults;
mod fronts;
mod judgement;
mod locating;
mod naming;
mod playing;
mod runs;
mod watching;

pub use counting::rounds;
pub use faults::PlayFault;
pub use fronts::control;
pub use judgement::{judge, judge_watched};
pub use playing::play;
pub use runs::Played;
pub use watching::{Watched, watch};
