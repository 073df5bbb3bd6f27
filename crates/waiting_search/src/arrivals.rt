//! What holds where the monitor comes to a level.
//!
//! It goes to the highest level that its last one allows, of those whose formula holds; where none does, to level 1. Where the formula of
//! level 0 holds there is nothing to be watched any longer, so it comes to no level.

use crate::claim::WaitingFor;
use control_cubes::{CubeFault, negation};
use st_form::{Change, Form};
use st_memory::Memory;
use std::alloc::Global;

/// The formulas of all levels, from level 0 up, as they are in a state.
#[derive(Drop)]
pub(crate) struct Formulas {
    forms: Vec<Form>,
}

impl Formulas {
    /// In the state itself.
    pub(crate) fn here(alloc: Global, claim: WaitingFor<'_>) -> Result<Formulas, CubeFault> {
        let mut forms = Vec::with_capacity(alloc, claim.forms.len())?;
        for form in claim.forms.iter().rev() {
            forms.push(form.copy(alloc)?)?;
        }
        Ok(Formulas { forms })
    }

    /// Behind a change, said of the state before it.
    pub(crate) fn behind(
        alloc: Global,
        claim: WaitingFor<'_>,
        change: &Change,
    ) -> Result<Formulas, CubeFault> {
        let mut forms = Vec::with_capacity(alloc, claim.forms.len())?;
        for form in claim.forms.iter().rev() {
            forms.push(form.replace(alloc, change)?)?;
        }
        Ok(Formulas { forms })
    }

    /// Appends that the formula of a level doesn't hold.
    fn push_denied(&self, alloc: Global, level: usize, out: &mut Vec<Form>) -> Result<(), Memory> {
        if let Some(form) = self.forms.get(level) {
            out.push(negation(alloc, form.copy(alloc)?)?)?;
        }
        Ok(())
    }

    /// Appends that the monitor comes to a level where it may go no higher than to another.
    pub(crate) fn push_arrival(
        &self,
        alloc: Global,
        highest: usize,
        level: usize,
        out: &mut Vec<Form>,
    ) -> Result<(), Memory> {
        self.push_denied(alloc, 0, out)?;
        for above in level.saturating_add(1)..highest.saturating_add(1) {
            self.push_denied(alloc, above, out)?;
        }
        if level > 1
            && let Some(form) = self.forms.get(level)
        {
            out.push(form.copy(alloc)?)?;
        }
        Ok(())
    }
}
