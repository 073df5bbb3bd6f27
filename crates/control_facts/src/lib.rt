//! Where control of a program can be: its sequential components and what each of them can be at.
//!
//! Components, control states and decided locations are those of `control_states`; which components a program has is
//! the definition `control_of` of `specs/Alternatives.antt`.
#![tactic(auto)]

mod choices;
mod walking;

pub use control_states::{Alternative, Component, Components, alternatives_at, around_at};
pub use walking::components;
