//! What the conditions of a rule are asked for.

use st_form::Form;
use std::alloc::Global;
use transition_system::Fts;

/// What a rule is asked for: its conditions for a system, named by the step of this number, where the formulas of the steps
/// that it cites hold.
#[derive(Drop)]
pub struct Asking<'a> {
    pub alloc: Global,
    pub fts: &'a Fts,
    pub step: u32,
    pub lemmas: &'a [Form],
}
