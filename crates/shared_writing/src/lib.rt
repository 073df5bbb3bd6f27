//! Certificate texts of version 3, written: a line for each tree, and behind them one for each certificate.
#![tactic(auto)]

pub mod laws;
mod text;
mod words;

pub use text::write;
