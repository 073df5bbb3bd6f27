//! Where modes lead: states, and cubes that are lifted.

use crate::setting::Setting;
use crate::step::Step;
use control_cubes::{Cube, CubeFault, Layout, PlaceSet, State};
use st_memory::Memory;
use std::alloc::Global;

/// Moves control to the places behind a mode.
fn move_control(places: &mut [u8], step: &Step<'_>) {
    for place in &step.behind {
        if let Some(at) = places.get_mut(place.component as usize) {
            *at = place.number;
        }
    }
}

/// Assigns the numbers of a mode. One that is too large stays as it is.
fn assign_numbers(numbers: &mut [i128], step: &Step<'_>, state: &State) {
    for (variable, row) in &step.change.numbers {
        if let Some(number) = numbers.get_mut(*variable as usize)
            && let Some(value) = state.value(row)
        {
            *number = value;
        }
    }
}

/// Assigns the truth values of a mode.
fn assign_truths(truths: &mut [bool], layout: &Layout, step: &Step<'_>, state: &State) {
    for (variable, form) in &step.change.truths {
        if let Some(truth) = truths.get_mut(*variable as usize) {
            *truth = state.satisfies(layout, form);
        }
    }
}

/// The state behind a mode. A number that is too large stays as it is.
fn state_behind(
    alloc: Global,
    layout: &Layout,
    step: &Step<'_>,
    state: &State,
) -> Result<State, Memory> {
    let mut behind = state.copy(alloc)?;
    move_control(&mut behind.places, step);
    assign_numbers(&mut behind.numbers, step, state);
    assign_truths(&mut behind.truths, layout, step, state);
    Ok(behind)
}

/// The state behind the mode with a number.
pub(crate) fn behind_step(
    alloc: Global,
    setting: &Setting<'_>,
    state: &State,
    step: u32,
) -> Result<Option<State>, Memory> {
    match setting.steps.get(step as usize) {
        Some(taken) => Ok(Some(state_behind(alloc, &setting.layout, taken, state)?)),
        None => Ok(None),
    }
}

/// Of what a cube says of a boolean variable what is so before a mode.
fn lift_truth(
    alloc: Global,
    layout: &Layout,
    step: &Step<'_>,
    state: &State,
    truth: (u32, bool),
    out: &mut Cube,
) -> Result<(), CubeFault> {
    match step.truth_behind(truth.0) {
        Some(form) => out.keep_implicant(alloc, layout, form, truth.1, state),
        None => Ok(out.push_truth(truth.0, truth.1)?),
    }
}

/// Of what a cube says of numbers what is so before a mode.
fn lift_rows(alloc: Global, step: &Step<'_>, cube: &Cube, out: &mut Cube) -> Result<(), CubeFault> {
    for row in &cube.rows {
        out.push_row(alloc, &row.replace(alloc, &step.change.numbers)?)?;
    }
    Ok(())
}

/// What is so before a mode of its places, of its guard, and of what a cube says, for the reason for which it is so in the state.
fn lift(
    alloc: Global,
    layout: &Layout,
    step: &Step<'_>,
    cube: &Cube,
    state: &State,
    out: &mut Cube,
) -> Result<(), CubeFault> {
    for place in &step.before {
        out.set_places(place.component, PlaceSet::one(place.number));
    }
    for (variable, value) in &cube.truths {
        lift_truth(alloc, layout, step, state, (*variable, *value), out)?;
    }
    lift_rows(alloc, step, cube, out)?;
    out.keep_implicant(alloc, layout, step.enabled.get(), true, state)
}

/// A cube that has the state, and from each of whose states the mode leads into this cube: the mode's places and the cube's others, and
/// of the guard and the cube's literals before the mode what is so for the reason for which it is so in the state.
pub(crate) fn lifted(
    alloc: Global,
    layout: &Layout,
    step: &Step<'_>,
    cube: &Cube,
    state: &State,
) -> Result<Cube, CubeFault> {
    let mut out = Cube {
        places: Vec::from_slice(alloc, &cube.places)?,
        truths: Vec::new(alloc),
        rows: Vec::new(alloc),
    };
    lift(alloc, layout, step, cube, state, &mut out)?;
    Ok(out)
}
