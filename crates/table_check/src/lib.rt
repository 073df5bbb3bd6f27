//! Whether trees by number that share their parts are certificates of conditions, none of them unfolded.
//!
//! The search over lists of conjuncts makes trees by number too. So a condition is searched first, and the tree that is found is
//! compared with the given one, each pair of numbers once. Where they differ, the given tree is checked as a certificate is.
#![tactic(auto)]

mod checking;
mod closing;
mod finding;
mod memo;
mod sameness;
mod sizes;

pub use checking::check;
