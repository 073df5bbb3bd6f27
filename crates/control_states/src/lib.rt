//! Where control can be: the sequential components of a program, what each can be at, and what decisions of some
//! components say of being at a location.
//!
//! A component is a process or a child of a cooperation. In the books (Manna and Pnueli, *Temporal Verification of
//! Reactive Systems: Safety*, 1995) these facts are the control invariants: of each active process exactly one
//! location predicate holds.
#![tactic(auto)]

mod alternative;
mod component;
mod components;
mod places;

pub use alternative::Alternative;
pub use component::Component;
pub use components::Components;
pub use places::{alternatives_at, around_at};
