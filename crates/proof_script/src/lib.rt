//! Proof scripts from text: goals of invariance, nested waiting-for and response, each with its rule and the earlier invariances
//! that it cites (Manna and Pnueli, *Temporal Verification of Reactive Systems*). A script is read from left to right up to the
//! first fault.
#![tactic(auto)]

mod claims;
mod fault;
mod items;
pub mod laws;
mod lists;
mod naming;
mod nested;
mod nets;
mod parts;
mod reading;
mod rules;
mod setting;
mod steps;
mod units;
mod waits;

pub use fault::{ScriptFault, ScriptKind};
pub use reading::read_script;
