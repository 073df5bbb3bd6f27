//! Programs as fair transition systems.
#![tactic(auto)]

mod composing;
pub mod laws;
mod making;
mod owning;
mod right_sides;

pub use translating::transitions_of;
pub use translation::translate;

mod translating;
mod translation;
