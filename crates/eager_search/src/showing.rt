//! A point as a state: decided components and boolean variables are as decided; an undecided component that is active has its first
//! alternative, an undecided boolean variable is false, as in the states that the first search shows.

use crate::search::Point;
use control_states::{Alternative, Component, Components};
use farkas_check::decisions::known_active;
use search_verdicts::Shown;
use st_form::Variable;
use st_memory::Memory;
use st_program::Datum;
use std::alloc::Global;

/// What a component is at, where it is active by the components before it.
fn next_standing(
    cases: &[Option<Alternative>],
    before: &[Option<Alternative>],
    part: &Component,
) -> Option<Alternative> {
    if !known_active(before, part.around()) {
        return None;
    }
    match cases.get(before.len()).copied().flatten() {
        Some(decided) => Some(decided),
        None => part.alternatives().first().copied(),
    }
}

/// What each component is at, where it is active.
fn standing(
    alloc: Global,
    cases: &[Option<Alternative>],
    parts: &[Component],
) -> Result<Vec<Option<Alternative>>, Memory> {
    let mut stood = Vec::with_capacity(alloc, parts.len())?;
    for part in parts {
        let next = next_standing(cases, &stood, part);
        stood.push(next)?;
    }
    Ok(stood)
}

/// The components that are at something, by rising number.
fn control_at(
    alloc: Global,
    stood: &[Option<Alternative>],
) -> Result<Vec<(u32, Alternative)>, Memory> {
    let mut out = Vec::new(alloc);
    for (component, at) in stood.iter().enumerate() {
        if let Some(alternative) = at
            && let Ok(number) = u32::try_from(component)
        {
            out.push((number, *alternative))?;
        }
    }
    Ok(out)
}

/// The value of a variable.
fn datum_at(variable: Variable, point: &Point, var: usize) -> Datum {
    if variable.truth {
        let decided = point.truths.get(var).copied().flatten();
        Datum::Truth(decided.unwrap_or(false))
    } else {
        Datum::Number(point.numbers.get(var).copied().unwrap_or(0))
    }
}

/// The state at a point.
pub(crate) fn shown_at(
    alloc: Global,
    components: &Components,
    variables: &[Variable],
    point: &Point,
) -> Result<Shown, Memory> {
    let stood = standing(alloc, &point.cases, components.parts())?;
    let mut store = Vec::with_capacity(alloc, variables.len())?;
    for (var, variable) in variables.iter().enumerate() {
        store.push(datum_at(*variable, point, var))?;
    }
    Ok(Shown {
        control: control_at(alloc, &stood)?,
        store,
    })
}
