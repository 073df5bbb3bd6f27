//! Blocks of certificates written straight from a table of trees: no certificate is unfolded.
//!
//! A tree that stands in the block already is copied from where it stands, so that a block of exponential length is made in as
//! many steps as its tree has different parts, and by copying. The text of a tree is the same wherever it stands.
#![tactic(auto)]

mod blocks;
mod leaves;
mod memo;
mod words;

pub use blocks::write_block;
pub use memo::{Place, Places};
