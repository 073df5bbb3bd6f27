//! Leaves of certificates: sums of rows and equations that no whole values meet, by Farkas' lemma.
#![tactic(auto)]

mod balance;
mod closing;
mod leaf;
mod lines;
mod picks;
mod sums;
mod terms;
mod window;

pub use leaf::leaf_closes;
pub use lines::{lent_closes, linear_closes};
pub use terms::LentLine;
