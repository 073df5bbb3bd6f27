//! Certificate texts of version 3, read: line by line, each line word by word, up to the first refusal.
#![tactic(auto)]

mod lines;
mod numbers;
mod picks;
mod reading;
mod trees;
mod words;

pub use reading::{add, has_header, read};
