//! The answer to `check` where certificates of version 3 are checked by number, and none is unfolded.
#![tactic(auto)]

mod answering;

pub use answering::checked;
