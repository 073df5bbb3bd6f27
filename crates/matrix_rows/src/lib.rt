//! Rows of matrices of whole numbers: sparse, each number below 2^100 in size.
#![tactic(auto)]

mod row;

pub use row::{Row, part};
