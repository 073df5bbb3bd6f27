//! What is answered to questions, where the search of `step` is followed by a stronger one, and `step`'s check judges what both found.
#![tactic(auto)]

mod answering;
mod certificates;
mod verifying;

pub use answering::answered;
pub use verifying::{proved, verified};
