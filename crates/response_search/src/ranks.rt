//! Items that are measured by ranks: linear forms that are at least 0 where the item holds. Each step leads to the goal, to an item with a
//! lower rank, or, unless the helper takes it, to where the item still holds and its rank is no higher.

use crate::chain::ChainItem;
use crate::items::{Denied, Trial, idle_question, is_never};
use control_cubes::{CubeFault, opposite};
use invariant_search::{Allowed, Search};
use st_form::{Form, Lin, SharedForm};
use std::alloc::Global;
use transition_system::Fts;

/// The rank of each item, and a bound: more than the rank of an item at which the wait begins.
#[derive(Drop)]
pub struct Ranks {
    pub of_items: Vec<Lin>,
    pub bound: Lin,
}

/// One form less another.
pub(crate) fn difference(alloc: Global, one: &Lin, other: &Lin) -> Result<Lin, CubeFault> {
    Ok(one.add(alloc, &other.negated(alloc)?)?)
}

/// A form with so much more in its constant.
pub(crate) fn raised(alloc: Global, form: &Lin, by: i128) -> Result<Lin, CubeFault> {
    let constant = Lin::constant_of(alloc, by)?;
    Ok(form.add(alloc, &constant)?)
}

/// A row as a formula.
pub(crate) fn row_form(alloc: Global, row: Lin) -> Result<SharedForm, CubeFault> {
    Ok(SharedForm::new(alloc, Form::Row(row), 0)?)
}

/// A form behind the mode with a number.
pub(crate) fn form_behind(
    alloc: Global,
    search: &Search<'_>,
    number: usize,
    form: &Lin,
) -> Result<Lin, CubeFault> {
    match search.steps().get(number) {
        Some(step) => Ok(form.replace(alloc, &step.change.numbers)?),
        None => Ok(form.copy(alloc)?),
    }
}

/// Appends that a formula is denied, or a row is at least 0.
fn push_denied_or(
    alloc: Global,
    denied: Option<&SharedForm>,
    row: Lin,
    out: &mut Vec<SharedForm>,
) -> Result<(), CubeFault> {
    if let Some(denied) = denied {
        let mut parts = Vec::with_capacity(alloc, 2)?;
        parts.push(denied.get().copy(alloc)?)?;
        parts.push(Form::Row(row))?;
        out.push(SharedForm::new(alloc, Form::Or(parts), 0)?)?;
    }
    Ok(())
}

/// Items with their ranks, and the goal.
#[derive(Clone, Copy)]
pub(crate) struct Ranked<'c> {
    pub(crate) goal: &'c Denied,
    pub(crate) items: &'c [ChainItem],
    pub(crate) ranks: &'c [Lin],
}

impl Ranked<'_> {
    /// Appends that the mode with a number leads from a rank to no item with a lower one.
    fn push_no_drop(
        &self,
        alloc: Global,
        search: &Search<'_>,
        number: usize,
        rank: &Lin,
        out: &mut Vec<SharedForm>,
    ) -> Result<(), CubeFault> {
        for (item, other) in self.items.iter().zip(self.ranks) {
            let behind = form_behind(alloc, search, number, other)?;
            let row = difference(alloc, &behind, rank)?;
            push_denied_or(alloc, item.trial.denied.behind(number), row, out)?;
        }
        Ok(())
    }

    /// Appends that the mode with a number leads from an item to where it doesn't hold, or its rank is higher.
    fn push_no_stay(
        &self,
        alloc: Global,
        search: &Search<'_>,
        number: usize,
        trial: &Trial,
        rank: &Lin,
        out: &mut Vec<SharedForm>,
    ) -> Result<(), CubeFault> {
        let behind = form_behind(alloc, search, number, rank)?;
        let row = raised(alloc, &difference(alloc, &behind, rank)?, -1)?;
        push_denied_or(alloc, trial.denied.behind(number), row, out)
    }

    /// That the mode with a number leads from an item with a rank astray.
    fn step_question(
        &self,
        alloc: Global,
        search: &Search<'_>,
        number: usize,
        trial: &Trial,
        rank: &Lin,
    ) -> Result<Vec<SharedForm>, CubeFault> {
        let mut forms = Vec::new(alloc);
        if let Some(step) = search.steps().get(number) {
            forms.push(step.enabled.share()?)?;
            forms.push(trial.form.share()?)?;
            self.goal.push_behind(number, &mut forms)?;
            if trial.may_stay(step.transition) {
                self.push_no_stay(alloc, search, number, trial, rank, &mut forms)?;
            }
        }
        self.push_no_drop(alloc, search, number, rank, &mut forms)?;
        Ok(forms)
    }

    /// Whether each mode leads from an item with a rank where it should.
    pub(crate) fn steps_well(
        &self,
        alloc: Global,
        search: &mut Search<'_>,
        trial: &Trial,
        rank: &Lin,
        allowed: Allowed<'_>,
        used: &mut Vec<u32>,
    ) -> Result<bool, CubeFault> {
        for number in 0..search.steps().len() {
            let forms = self.step_question(alloc, search, number, trial, rank)?;
            if !is_never(alloc, search, forms, allowed, used)? {
                return Ok(false);
            }
        }
        Ok(true)
    }

    /// Whether an item with a rank meets its conditions by the lemmas that are allowed; those because of which it does are appended to
    /// those used.
    fn is_kept(
        &self,
        alloc: Global,
        search: &mut Search<'_>,
        system: &Fts,
        trial: &Trial,
        rank: &Lin,
        allowed: Allowed<'_>,
        used: &mut Vec<u32>,
    ) -> Result<bool, CubeFault> {
        let idle = idle_question(alloc, system, trial)?;
        if !is_never(alloc, search, idle, allowed, used)? {
            return Ok(false);
        }
        if !is_bounded(alloc, search, trial, rank, allowed, used)? {
            return Ok(false);
        }
        self.steps_well(alloc, search, trial, rank, allowed, used)
    }

    /// Whether all items meet their conditions by the lemmas that are allowed.
    pub(crate) fn are_kept(
        &self,
        alloc: Global,
        search: &mut Search<'_>,
        system: &Fts,
        allowed: Allowed<'_>,
        used: &mut Vec<u32>,
    ) -> Result<bool, CubeFault> {
        for (item, rank) in self.items.iter().zip(self.ranks) {
            if !self.is_kept(alloc, search, system, &item.trial, rank, allowed, used)? {
                return Ok(false);
            }
        }
        Ok(true)
    }

    /// Whether a wait begins at the goal, or at an item whose rank is below a bound.
    pub(crate) fn covers(
        &self,
        alloc: Global,
        search: &mut Search<'_>,
        start: &SharedForm,
        bound: &Lin,
        allowed: Allowed<'_>,
        used: &mut Vec<u32>,
    ) -> Result<bool, CubeFault> {
        let mut forms = Vec::new(alloc);
        forms.push(start.share()?)?;
        forms.push(self.goal.here.share()?)?;
        for (item, rank) in self.items.iter().zip(self.ranks) {
            let row = difference(alloc, rank, bound)?;
            push_denied_or(alloc, Some(&item.trial.denied.here), row, &mut forms)?;
        }
        is_never(alloc, search, forms, allowed, used)
    }
}

/// Whether a form is at least 0 wherever an item holds.
pub(crate) fn is_bounded(
    alloc: Global,
    search: &mut Search<'_>,
    trial: &Trial,
    form: &Lin,
    allowed: Allowed<'_>,
    used: &mut Vec<u32>,
) -> Result<bool, CubeFault> {
    let mut forms = Vec::new(alloc);
    forms.push(trial.form.share()?)?;
    forms.push(row_form(alloc, opposite(alloc, form)?)?)?;
    is_never(alloc, search, forms, allowed, used)
}
