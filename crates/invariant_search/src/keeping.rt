//! Which lemmas a clause or a formula needs to be kept by each step, as a proof by invariance has it.

use crate::answer::{Answer, Entry};
use crate::lemma::Allowed;
use crate::prover::{narrowed, passing};
use crate::search::Search;
use control_cubes::{CubeFault, negation};
use st_form::{Form, SharedForm, is_same};
use std::alloc::Global;

impl Search<'_> {
    /// What is asked of a mode: that it is enabled, that the formula holds before it, and doesn't hold behind it; `None` where the mode
    /// changes nothing that the formula speaks of.
    fn broken_by(
        &self,
        alloc: Global,
        form: &Form,
        held: &SharedForm,
        number: usize,
    ) -> Result<Option<Vec<SharedForm>>, CubeFault> {
        let Some(step) = self.solver.setting.steps.get(number) else {
            return Ok(None);
        };
        let behind = form.replace(alloc, step.change)?;
        if is_same(&behind, form) {
            return Ok(None);
        }
        let mut forms = Vec::with_capacity(alloc, 3)?;
        forms.push(step.enabled.share()?)?;
        forms.push(held.share()?)?;
        forms.push(passing(alloc, negation(alloc, behind)?)?)?;
        Ok(Some(forms))
    }

    /// Whether a mode leads from a state where the formula holds, and the lemmas that are allowed, to one where it doesn't.
    fn breaks(
        &mut self,
        alloc: Global,
        form: &Form,
        held: &SharedForm,
        number: usize,
        allowed: Allowed<'_>,
    ) -> Result<Answer, CubeFault> {
        match self.broken_by(alloc, form, held, number)? {
            Some(forms) => self.solve(alloc, forms, allowed),
            None => Ok(Answer::Never(Vec::new(alloc))),
        }
    }

    /// The lemmas because of which each step keeps the formula.
    pub(crate) fn kept(
        &mut self,
        alloc: Global,
        form: &Form,
        allowed: Allowed<'_>,
    ) -> Result<Entry, CubeFault> {
        let held = passing(alloc, form.copy(alloc)?)?;
        let mut used = Vec::new(alloc);
        for number in 0..self.solver.setting.steps.len() {
            match self.breaks(alloc, form, &held, number, allowed)? {
                Answer::Never(more) => used.extend_from_slice(&more)?,
                Answer::State(state) => {
                    return Ok(Entry::Before(state, narrowed(number)));
                }
                Answer::Unknown(why) => return Ok(Entry::Unknown(why)),
            }
        }
        used.sort_unstable();
        used.dedup();
        Ok(Entry::Blocked(used))
    }
}
