//! Certificates of large programs, written as a text of version 3 from the table in which the search has its trees. None is unfolded.
#![tactic(auto)]

mod entering;
mod marks;
mod proving;
mod writing;

pub use proving::proved;
