//! Chains for responses, found by saturation.
//!
//! A chain is a list of items, each a formula and a helper: a just transition that is enabled wherever the formula holds, and that leads, as any
//! other step does that doesn't keep the formula, to the goal or to an item nearer to it (the rule CHAIN-J of Manna and Pnueli, Completing the
//! temporal picture, 1991). An item that is valid over some items is valid over more. So in whatever order valid candidates are taken,
//! nothing is lost, and the first that is found is taken.
#![tactic(auto)]

mod bases;
mod candidates;
mod cases;
mod chain;
mod cycles;
mod edges;
mod group_bases;
mod groups;
mod growth;
mod houdini;
mod items;
mod literals;
mod loops;
mod measures;
mod ranks;
mod refuting;
mod said;
mod saturation;
mod witnesses;

pub use bases::Setting;
pub use chain::{Chain, ChainItem, Measure};
pub use growth::{Sought, chain_for, short_chain_for};
pub use houdini::{learn, learn_more};
pub use ranks::Ranks;
