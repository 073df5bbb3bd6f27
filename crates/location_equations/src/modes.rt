//! The modes by which one component goes from one of its locations to another, and which variables others change.

use crate::guards::value;
use control_states::Components;
use st_linear::{Lin, LinFault};
use st_memory::Memory;
use std::alloc::Global;
use transition_system::{Fts, Mode};

/// The component that owns a location.
pub(crate) fn owner(components: &Components, location: u32) -> Option<u32> {
    components.owners().get(location as usize).copied()
}

/// The only location of a list.
fn only(locations: &[u32]) -> Option<u32> {
    match locations {
        [location] => Some(*location),
        _ => None,
    }
}

/// The locations between which a mode takes one component, if it is such a mode.
pub(crate) fn passage(components: &Components, mode: &Mode) -> Option<(u32, u32)> {
    let from = only(&mode.at)?;
    let to = only(&mode.change.enters)?;
    if owner(components, from) == owner(components, to) {
        Some((from, to))
    } else {
        None
    }
}

/// Whether a mode is of other components alone.
fn is_of_another(components: &Components, mode: &Mode, component: u32) -> bool {
    for location in &mode.at {
        if owner(components, *location) == Some(component) {
            return false;
        }
    }
    true
}

/// Whether a mode gives the number a value.
fn gives(mode: &Mode, variable: u32) -> bool {
    for pair in &mode.change.numbers {
        if pair.0 == variable {
            return true;
        }
    }
    false
}

/// Whether some mode of another component gives the number a value.
fn is_changed_outside(fts: &Fts, components: &Components, component: u32, variable: u32) -> bool {
    for transition in &fts.transitions {
        for mode in &transition.modes {
            if gives(mode, variable) && is_of_another(components, mode, component) {
                return true;
            }
        }
    }
    false
}

/// The variables of which a component knows nothing: truth values, and numbers that others change.
pub(crate) fn unknown_to(
    alloc: Global,
    fts: &Fts,
    components: &Components,
    component: u32,
) -> Result<Vec<u32>, Memory> {
    let mut out = Vec::new(alloc);
    let mut variable: u32 = 0;
    for truth in &fts.truths {
        if *truth || is_changed_outside(fts, components, component, variable) {
            out.push(variable)?;
        }
        variable = variable.saturating_add(1);
    }
    Ok(out)
}

/// The entry of a vector behind a change.
fn entry_behind(
    numbers: &[(u32, Lin)],
    constant: u32,
    vector: &Lin,
    column: u32,
) -> Result<i128, LinFault> {
    for pair in numbers {
        if pair.0 == column {
            return value(&pair.1, constant, vector);
        }
    }
    Ok(matrix_rows::part(column, vector.entries()))
}

/// The vector behind a change; the column of the constant is the last one.
pub(crate) fn image(
    alloc: Global,
    numbers: &[(u32, Lin)],
    constant: u32,
    vector: &Lin,
) -> Result<Lin, LinFault> {
    let mut entries = Vec::new(alloc);
    for column in 0..=constant {
        let entry = entry_behind(numbers, constant, vector, column)?;
        if entry != 0 {
            entries.push((column, entry))?;
        }
    }
    match Lin::of_entries(alloc, 0, &entries)? {
        Some(image) => Ok(image),
        None => Err(LinFault::TooLarge),
    }
}
