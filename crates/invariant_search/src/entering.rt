//! The conditions that a mode keeps the complement of a cube.

use crate::prover::{narrowed, passing};
use crate::setting::Setting;
use crate::step::Step;
use control_cubes::{Cube, CubeFault, Place, negation, set_form, truth_form};
use st_form::{Form, SharedForm};
use std::alloc::Global;

/// Whether each of these places is among those of the cube.
pub(crate) fn are_among(cube: &Cube, places: &[Place]) -> bool {
    for place in places {
        if !cube.places_of(place.component).has(place.number) {
            return false;
        }
    }
    true
}

/// Whether control can be within the cube at the beginning.
pub(crate) fn starts_within(setting: &Setting<'_>, cube: &Cube) -> bool {
    are_among(cube, &setting.first)
}

/// The states of the cube as one formula.
fn within(alloc: Global, setting: &Setting<'_>, cube: &Cube) -> Result<SharedForm, CubeFault> {
    let form = cube.form(alloc, setting.components, &setting.layout)?;
    Ok(passing(alloc, form)?)
}

/// What is asked of the cube at the beginning: that a run begins in it.
pub(crate) fn start_question(
    alloc: Global,
    setting: &Setting<'_>,
    cube: &Cube,
) -> Result<Vec<SharedForm>, CubeFault> {
    let mut forms = Vec::with_capacity(alloc, 2)?;
    forms.push(setting.initial.share()?)?;
    forms.push(within(alloc, setting, cube)?)?;
    Ok(forms)
}

/// Whether a mode changes nothing that the cube speaks of, and starts at its places: then it leads into the cube from within alone.
fn is_idle(cube: &Cube, step: &Step<'_>) -> bool {
    if !are_among(cube, &step.before) {
        return false;
    }
    for (variable, _) in &step.change.truths {
        if cube.truth(*variable).is_some() {
            return false;
        }
    }
    for (variable, _) in &step.change.numbers {
        if cube.speaks_of(*variable) {
            return false;
        }
    }
    true
}

/// The cube's places of components that the mode doesn't move.
fn push_unmoved(
    alloc: Global,
    setting: &Setting<'_>,
    cube: &Cube,
    step: &Step<'_>,
    out: &mut Vec<Form>,
) -> Result<(), CubeFault> {
    for (component, set) in cube.places.iter().enumerate() {
        if !step.moves(component) && *set != setting.layout.full_of(component) {
            let component = narrowed(component);
            let form = set_form(alloc, setting.components, &setting.layout, component, *set)?;
            out.push(form)?;
        }
    }
    Ok(())
}

/// A boolean variable's value behind the mode, as a formula before it.
fn truth_before(
    alloc: Global,
    step: &Step<'_>,
    variable: u32,
    value: bool,
) -> Result<Form, CubeFault> {
    match step.truth_behind(variable) {
        None => Ok(truth_form(alloc, variable, value)?),
        Some(form) => {
            let before = form.copy(alloc)?;
            if value {
                Ok(before)
            } else {
                Ok(negation(alloc, before)?)
            }
        }
    }
}

/// What the cube says of boolean variables behind the mode.
fn push_truths(
    alloc: Global,
    cube: &Cube,
    step: &Step<'_>,
    out: &mut Vec<Form>,
) -> Result<(), CubeFault> {
    for (variable, value) in &cube.truths {
        out.push(truth_before(alloc, step, *variable, *value)?)?;
    }
    Ok(())
}

/// What the cube says of numbers behind the mode.
fn push_rows(
    alloc: Global,
    cube: &Cube,
    step: &Step<'_>,
    out: &mut Vec<Form>,
) -> Result<(), CubeFault> {
    for row in &cube.rows {
        out.push(Form::Row(row.replace(alloc, &step.change.numbers)?))?;
    }
    Ok(())
}

/// That the mode leads into the cube, part by part: the weakest precondition of the cube's literals (Hoare, An axiomatic basis for
/// computer programming, 1969).
fn push_precondition(
    alloc: Global,
    setting: &Setting<'_>,
    cube: &Cube,
    step: &Step<'_>,
    out: &mut Vec<Form>,
) -> Result<(), CubeFault> {
    push_unmoved(alloc, setting, cube, step, out)?;
    push_truths(alloc, cube, step, out)?;
    push_rows(alloc, cube, step, out)
}

/// That the mode leads into the cube, as one formula.
fn precondition(
    alloc: Global,
    setting: &Setting<'_>,
    cube: &Cube,
    step: &Step<'_>,
) -> Result<SharedForm, CubeFault> {
    let mut parts = Vec::new(alloc);
    push_precondition(alloc, setting, cube, step, &mut parts)?;
    Ok(passing(alloc, Form::And(parts))?)
}

/// That control isn't where the cube says, or a variable isn't.
fn outside(alloc: Global, setting: &Setting<'_>, cube: &Cube) -> Result<SharedForm, CubeFault> {
    let clause = cube.clause(alloc, setting.components, &setting.layout)?;
    Ok(passing(alloc, clause)?)
}

/// That the mode leads into the cube from outside it, which the places may say already.
fn push_entry(
    alloc: Global,
    setting: &Setting<'_>,
    cube: &Cube,
    step: &Step<'_>,
    out: &mut Vec<SharedForm>,
) -> Result<(), CubeFault> {
    out.push(step.enabled.share()?)?;
    out.push(precondition(alloc, setting, cube, step)?)?;
    if are_among(cube, &step.before) {
        out.push(outside(alloc, setting, cube)?)?;
    }
    Ok(())
}

/// Whether the mode may lead into the cube from outside it, by its places and by what it changes.
pub(crate) fn may_enter(cube: &Cube, step: &Step<'_>) -> bool {
    !is_idle(cube, step) && are_among(cube, &step.behind)
}

/// What is asked of the mode with a number: that it leads into the cube from outside it, and for level 1 from a first state of runs;
/// `None` where it doesn't, by its places or by what it changes.
pub(crate) fn entry_question(
    alloc: Global,
    setting: &Setting<'_>,
    cube: &Cube,
    first: bool,
    number: usize,
) -> Result<Option<Vec<SharedForm>>, CubeFault> {
    let Some(step) = setting.steps.get(number) else {
        return Ok(None);
    };
    if !may_enter(cube, step) {
        return Ok(None);
    }
    let mut forms = Vec::with_capacity(alloc, 4)?;
    push_entry(alloc, setting, cube, step, &mut forms)?;
    if first {
        forms.push(setting.initial.share()?)?;
    }
    Ok(Some(forms))
}
