//! A state as a person reads it: where control is, and the value of each variable.

use crate::fault::ClauseFault;
use crate::phrases::Phrase;
use crate::writer::ClauseWriter;
use control_cubes::{Cube, Layout, PlaceSet, State};
use st_linear::Lin;
use st_program::Variable;
use std::alloc::Global;

/// The form that is 0 where a variable has this value.
fn difference(alloc: Global, variable: u32, value: i128) -> Result<Lin, ClauseFault> {
    let Some(constant) = value.checked_neg() else {
        return Err(ClauseFault::Unsaid);
    };
    match Lin::of_entries(alloc, constant, &[(variable, 1)])? {
        Some(form) => Ok(form),
        None => Err(ClauseFault::Unsaid),
    }
}

/// Says of a cube that a variable has its value in a state.
fn push_value(
    alloc: Global,
    state: &State,
    variable: u32,
    truth: bool,
    cube: &mut Cube,
) -> Result<(), ClauseFault> {
    if truth {
        cube.push_truth(variable, state.truth(variable))?;
    } else if let Some(value) = state.numbers.get(variable as usize) {
        let row = difference(alloc, variable, *value)?;
        cube.push_row(alloc, &row)?;
        cube.push_row(alloc, &row.negated(alloc)?)?;
    }
    Ok(())
}

/// The cube that has a state alone.
fn cube_of(
    alloc: Global,
    layout: &Layout,
    variables: &[Variable],
    state: &State,
) -> Result<Cube, ClauseFault> {
    let mut cube = Cube::everything(alloc, layout)?;
    for (component, place) in state.places.iter().enumerate() {
        if let Ok(component) = u32::try_from(component) {
            cube.set_places(component, PlaceSet::one(*place));
        }
    }
    for (number, variable) in variables.iter().enumerate() {
        if let Ok(number) = u32::try_from(number) {
            push_value(alloc, state, number, variable.truth, &mut cube)?;
        }
    }
    Ok(cube)
}

impl ClauseWriter<'_> {
    /// Where control is in a state, and the value of each variable, as one phrase. `Unsaid` where a place can't be said.
    pub fn state(
        &self,
        alloc: Global,
        layout: &Layout,
        variables: &[Variable],
        state: &State,
    ) -> Result<Phrase, ClauseFault> {
        self.said(alloc, &cube_of(alloc, layout, variables, state)?)
    }
}
