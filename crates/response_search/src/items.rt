//! The conditions of an item over those that are nearer to the goal: its helper, or the transition that its group waits for, is enabled
//! wherever it holds, and each step leads to the goal, to something nearer, or, unless the helper or the group's transition takes it, to
//! where the item still holds. From where the group's transition is enabled a step of another leads to anywhere in the group as well, since
//! a compassionate transition that is enabled again and again is taken.

use control_cubes::{CubeFault, State, negation};
use invariant_search::{Allowed, Answer, Search};
use st_form::{Form, SharedForm};
use st_memory::Memory;
use std::alloc::Global;
use transition_system::{Fts, enabled};

/// A formula that is denied, here and behind each mode.
#[derive(Drop)]
pub(crate) struct Denied {
    pub(crate) here: SharedForm,
    behind: Vec<SharedForm>,
}

/// The items that wait for a compassionate transition together: its number, and their own among the groups.
#[derive(Clone, Copy, PartialEq, Eq)]
pub(crate) struct Group {
    pub(crate) transition: u32,
    pub(crate) number: usize,
}

/// An item that is to be checked. It has a helper or a group.
#[derive(Drop)]
pub(crate) struct Trial {
    pub(crate) helper: Option<u32>,
    pub(crate) group: Option<Group>,
    pub(crate) form: SharedForm,
    pub(crate) denied: Denied,
}

/// What is around an item: the goal, what is nearer to it, and where its group may go on from wherever its transition is enabled.
#[derive(Clone, Copy)]
pub(crate) struct Around<'c> {
    pub(crate) goal: &'c Denied,
    pub(crate) nearer: &'c [&'c Denied],
    pub(crate) group: &'c [&'c Denied],
}

/// Why an item isn't known to meet its conditions: the state from which the step with a number leads astray, if one was shown.
#[derive(Drop)]
pub(crate) struct Astray {
    pub(crate) from: Option<State>,
    pub(crate) step: u32,
}

/// A formula denied.
pub(crate) fn denial(alloc: Global, form: Form) -> Result<SharedForm, Memory> {
    SharedForm::new(alloc, negation(alloc, form)?, 0)
}

impl Denied {
    /// A formula denied.
    pub(crate) fn of(alloc: Global, search: &Search<'_>, form: &Form) -> Result<Denied, CubeFault> {
        let here = denial(alloc, form.copy(alloc)?)?;
        let mut behind = Vec::with_capacity(alloc, search.steps().len())?;
        for step in search.steps() {
            behind.push(denial(alloc, form.replace(alloc, step.change)?)?)?;
        }
        Ok(Denied { here, behind })
    }

    /// That it is denied behind the mode with a number.
    pub(crate) fn behind(&self, number: usize) -> Option<&SharedForm> {
        self.behind.get(number)
    }

    /// Appends that it is denied behind the mode with a number.
    pub(crate) fn push_behind(
        &self,
        number: usize,
        out: &mut Vec<SharedForm>,
    ) -> Result<(), Memory> {
        if let Some(form) = self.behind.get(number) {
            out.push(form.share()?)?;
        }
        Ok(())
    }
}

/// Appends that each is denied behind the mode with a number.
fn push_all_behind(
    all: &[&Denied],
    number: usize,
    out: &mut Vec<SharedForm>,
) -> Result<(), Memory> {
    for denied in all {
        denied.push_behind(number, out)?;
    }
    Ok(())
}

impl Trial {
    /// An item of a formula.
    pub(crate) fn new(
        alloc: Global,
        search: &Search<'_>,
        form: SharedForm,
        helper: Option<u32>,
        group: Option<Group>,
    ) -> Result<Trial, CubeFault> {
        let denied = Denied::of(alloc, search, form.get())?;
        Ok(Trial {
            helper,
            group,
            form,
            denied,
        })
    }

    /// Whether a step of a transition may leave the item as it is.
    pub(crate) fn may_stay(&self, transition: u32) -> bool {
        self.helper != Some(transition) && !self.is_awaited(transition)
    }

    /// Whether its group waits for a transition.
    fn is_awaited(&self, transition: u32) -> bool {
        match self.group {
            Some(group) => group.transition == transition,
            None => false,
        }
    }
}

/// Appends that the transition with a number isn't enabled.
fn push_idle(
    alloc: Global,
    system: &Fts,
    number: u32,
    out: &mut Vec<SharedForm>,
) -> Result<(), Memory> {
    if let Some(transition) = system.transitions.get(number as usize) {
        out.push(denial(alloc, enabled(alloc, transition)?)?)?;
    }
    Ok(())
}

/// Appends that the transition that a group waits for isn't enabled.
fn push_unready(
    alloc: Global,
    system: &Fts,
    group: Option<Group>,
    out: &mut Vec<SharedForm>,
) -> Result<(), Memory> {
    match group {
        Some(group) => push_idle(alloc, system, group.transition, out),
        None => Ok(()),
    }
}

/// That the item holds, and neither its helper nor what its group waits for is enabled.
pub(crate) fn idle_question(
    alloc: Global,
    system: &Fts,
    trial: &Trial,
) -> Result<Vec<SharedForm>, Memory> {
    let mut forms = Vec::new(alloc);
    forms.push(trial.form.share()?)?;
    if let Some(helper) = trial.helper {
        push_idle(alloc, system, helper, &mut forms)?;
    }
    push_unready(alloc, system, trial.group, &mut forms)?;
    Ok(forms)
}

/// That the mode with a number leads from the item to nothing nearer.
fn step_question(
    alloc: Global,
    search: &Search<'_>,
    number: usize,
    trial: &Trial,
    around: Around<'_>,
) -> Result<Vec<SharedForm>, Memory> {
    let mut forms = Vec::new(alloc);
    if let Some(step) = search.steps().get(number) {
        forms.push(step.enabled.share()?)?;
        forms.push(trial.form.share()?)?;
        around.goal.push_behind(number, &mut forms)?;
        if trial.may_stay(step.transition) {
            trial.denied.push_behind(number, &mut forms)?;
        }
    }
    push_all_behind(around.nearer, number, &mut forms)?;
    Ok(forms)
}

/// A step's number as the search takes it; the largest one for what has none.
fn step_number(number: usize) -> u32 {
    u32::try_from(number).unwrap_or(u32::MAX)
}

/// Asks whether formulas are true together. Where they never are, the lemmas because of which it is so are appended to those used.
fn asked(
    alloc: Global,
    search: &mut Search<'_>,
    forms: Vec<SharedForm>,
    number: usize,
    allowed: Allowed<'_>,
    used: &mut Vec<u32>,
) -> Result<Option<Astray>, CubeFault> {
    let step = step_number(number);
    match search.solve(alloc, forms, allowed)? {
        Answer::Never(lemmas) => {
            used.extend_from_slice(&lemmas)?;
            Ok(None)
        }
        Answer::State(state) => Ok(Some(Astray {
            from: Some(state),
            step,
        })),
        Answer::Unknown(_) => Ok(Some(Astray { from: None, step })),
    }
}

/// Whether formulas are never true together, by the lemmas that are allowed. Those because of which it is so are appended to those used.
pub(crate) fn is_never(
    alloc: Global,
    search: &mut Search<'_>,
    forms: Vec<SharedForm>,
    allowed: Allowed<'_>,
    used: &mut Vec<u32>,
) -> Result<bool, CubeFault> {
    match search.solve(alloc, forms, allowed)? {
        Answer::Never(lemmas) => {
            used.extend_from_slice(&lemmas)?;
            Ok(true)
        }
        Answer::State(_) | Answer::Unknown(_) => Ok(false),
    }
}

/// Checks the mode with a number from an item whose group may go on where its transition is enabled, and isn't it that is taken.
fn astray_in_group(
    alloc: Global,
    search: &mut Search<'_>,
    system: &Fts,
    number: usize,
    trial: &Trial,
    around: Around<'_>,
    allowed: Allowed<'_>,
    used: &mut Vec<u32>,
) -> Result<Option<Astray>, CubeFault> {
    let mut forms = step_question(alloc, search, number, trial, around)?;
    push_unready(alloc, system, trial.group, &mut forms)?;
    let found = asked(alloc, search, forms, number, allowed, used)?;
    if found.is_some() {
        return Ok(found);
    }
    let mut forms = step_question(alloc, search, number, trial, around)?;
    push_all_behind(around.group, number, &mut forms)?;
    asked(alloc, search, forms, number, allowed, used)
}

/// Whether the mode with a number is one of a transition other than that for which the item's group waits, if it has one.
fn is_free(search: &Search<'_>, number: usize, trial: &Trial) -> bool {
    match search.steps().get(number) {
        Some(step) => trial.group.is_some() && !trial.is_awaited(step.transition),
        None => false,
    }
}

/// Checks the modes from a number on from an item.
pub(crate) fn astray_by_steps(
    alloc: Global,
    search: &mut Search<'_>,
    system: &Fts,
    trial: &Trial,
    around: Around<'_>,
    allowed: Allowed<'_>,
    used: &mut Vec<u32>,
    first: usize,
) -> Result<Option<Astray>, CubeFault> {
    for number in first..search.steps().len() {
        let found = if is_free(search, number, trial) {
            astray_in_group(alloc, search, system, number, trial, around, allowed, used)?
        } else {
            let forms = step_question(alloc, search, number, trial, around)?;
            asked(alloc, search, forms, number, allowed, used)?
        };
        if found.is_some() {
            return Ok(found);
        }
    }
    Ok(None)
}

/// Why an item isn't known to meet its conditions by the lemmas that are allowed; `None` where it meets them. The lemmas because of which
/// it does are appended to those used.
pub(crate) fn item_astray(
    alloc: Global,
    search: &mut Search<'_>,
    system: &Fts,
    trial: &Trial,
    around: Around<'_>,
    allowed: Allowed<'_>,
    used: &mut Vec<u32>,
) -> Result<Option<Astray>, CubeFault> {
    let idle = idle_question(alloc, system, trial)?;
    let found = asked(alloc, search, idle, usize::MAX, allowed, used)?;
    if found.is_some() {
        return Ok(found);
    }
    astray_by_steps(alloc, search, system, trial, around, allowed, used, 0)
}
