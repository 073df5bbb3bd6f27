//! Trees that share their parts, unfolded: certificates of version 2, in which nothing is shared, and their text.
//!
//! A table of few nodes may mean a tree of exponentially many. So how large each tree is, is counted by number first, to just
//! above the limit, and only what is within it is unfolded.
#![tactic(auto)]

mod sizes;
mod texts;
mod trees;

pub use texts::{Refusal, version_2};
pub use trees::numbered;
