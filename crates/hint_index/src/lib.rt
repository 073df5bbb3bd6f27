//! Hashes, and an index by hash of what is kept under numbers. Both are hints: what they give is compared before it is used.
#![tactic(auto)]

mod hashes;
mod slots;

pub use hashes::{folded, line_mixed, mixed};
pub use slots::{Index, enter, hint, no_index};
