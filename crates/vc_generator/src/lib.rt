//! Verification conditions: built from formulas, modes and systems, and appended to a list within its limits.
#![tactic(auto)]

mod asking;
mod befores;
pub mod building;
mod cases;
mod changes;
pub mod conditions;
mod counts;
mod falls;
mod faults;
mod given;
mod hashes;
mod making;
mod naming;
pub mod numbers;
mod pools;
pub mod rule;
mod sameness;
mod sharing;
pub mod walk;
mod weighing;

pub use asking::Asking;
pub use building::{Case, entails, moved, start, triple};
pub use conditions::{Conditions, take_back};
pub use faults::VcFault;
pub use naming::{by_mode, plainly};
pub use rule::Rule;
pub use walk::{PerMode, each_mode};
