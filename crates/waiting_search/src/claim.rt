//! What is claimed.

use st_form::Form;

/// A waiting-for: where it is claimed, and what holds in turn from there on, from the highest level down to level 0.
#[derive(Clone, Copy)]
pub struct WaitingFor<'g> {
    pub start: &'g Form,
    pub forms: &'g [Form],
}

impl WaitingFor<'_> {
    /// The highest level.
    pub fn highest(&self) -> usize {
        self.forms.len().saturating_sub(1)
    }

    /// The formula of a level.
    pub fn form(&self, level: usize) -> Option<&Form> {
        self.forms.get(self.highest().checked_sub(level)?)
    }
}
