//! Karr's analysis (M. Karr, Affine relationships among variables of a program, Acta Informatica 1976), in the form of Mueller-Olm and
//! Seidl (A note on Karr's algorithm, ICALP 2004): of each location of a component the least affine space that has all states in which
//! control comes there, as far as assignments and the equations among a guard's conjuncts say.

use crate::analysis::{Analysis, begun};
use crate::equations::{LocationEquation, push_equations_at};
use crate::guards::{all_met, push_equations};
use crate::modes::{image, passage};
use crate::spaces::Space;
use control_states::Components;
use st_form::Form;
use st_linear::{Lin, LinFault};
use st_memory::Memory;
use std::alloc::Global;
use transition_system::{Fts, Mode};

/// The locations at which control begins.
fn starts(alloc: Global, initial: &Form) -> Result<Vec<u32>, Memory> {
    let mut out = Vec::new(alloc);
    if let Form::And(parts) = initial {
        for part in parts {
            if let Form::At(location) = part {
                out.push(*location)?;
            }
        }
    }
    Ok(out)
}

/// Generators of the states that meet the equations of the initial condition.
fn first_rows(alloc: Global, initial: &Form, constant: u32) -> Result<Vec<Lin>, LinFault> {
    let mut forms = Vec::new(alloc);
    push_equations(alloc, initial, true, &mut forms)?;
    let mut whole = Space::empty(alloc);
    for column in 0..=constant {
        let unit = Lin::variable(alloc, column)?;
        whole.add(alloc, unit)?;
    }
    all_met(alloc, &whole, constant, &forms)
}

/// Adds the start, at the locations where control begins.
fn add_start(alloc: Global, analysis: &mut Analysis<'_>, initial: &Form) -> Result<(), LinFault> {
    let rows = first_rows(alloc, initial, analysis.constant)?;
    for location in starts(alloc, initial)? {
        for row in &rows {
            let row = row.copy(alloc)?;
            analysis.add(alloc, location, row)?;
        }
        analysis.add_unknown(alloc, location)?;
    }
    Ok(())
}

/// What of a location's space meets the equations of a guard.
fn rows_before(
    alloc: Global,
    analysis: &Analysis<'_>,
    mode: &Mode,
    from: u32,
) -> Result<Vec<Lin>, LinFault> {
    let mut forms = Vec::new(alloc);
    push_equations(alloc, &mode.guard, true, &mut forms)?;
    match analysis.spaces.get(from as usize) {
        Some(space) => all_met(alloc, space, analysis.constant, &forms),
        None => Ok(Vec::new(alloc)),
    }
}

/// Takes what is known before a mode behind it, and answers whether a space has grown.
fn pass(
    alloc: Global,
    analysis: &mut Analysis<'_>,
    mode: &Mode,
    from: u32,
    to: u32,
) -> Result<bool, LinFault> {
    let rows = rows_before(alloc, analysis, mode, from)?;
    if rows.is_empty() {
        return Ok(false);
    }
    let constant = analysis.constant;
    let mut grown = false;
    for row in &rows {
        let behind = image(alloc, &mode.change.numbers, constant, row)?;
        grown = analysis.add(alloc, to, behind)? || grown;
    }
    Ok(analysis.add_unknown(alloc, to)? || grown)
}

/// Takes a mode, whichever it is.
fn take(alloc: Global, analysis: &mut Analysis<'_>, mode: &Mode) -> Result<bool, LinFault> {
    if let Some((from, to)) = passage(analysis.components, mode) {
        return pass(alloc, analysis, mode, from, to);
    }
    let mut grown = false;
    for location in &mode.change.enters {
        grown = analysis.add_all(alloc, *location)? || grown;
    }
    Ok(grown)
}

/// Takes each mode once, and answers whether a space has grown.
fn round(alloc: Global, analysis: &mut Analysis<'_>, fts: &Fts) -> Result<bool, LinFault> {
    let mut grown = false;
    for transition in &fts.transitions {
        for mode in &transition.modes {
            grown = take(alloc, analysis, mode)? || grown;
        }
    }
    Ok(grown)
}

/// Takes all modes until no space grows. Each round but the last makes a space larger, so there are no more than all have columns.
fn finish(alloc: Global, analysis: &mut Analysis<'_>, fts: &Fts) -> Result<(), LinFault> {
    let columns = u64::from(analysis.constant).saturating_add(1);
    for _ in 0..=u64::from(fts.locations).saturating_mul(columns) {
        if !round(alloc, analysis, fts)? {
            return Ok(());
        }
    }
    Ok(())
}

/// The equations that hold at each of these locations as far as is found, in order of locations. `TooLarge` where a number on the way
/// comes to 2^100 in size.
pub fn location_equations(
    alloc: Global,
    fts: &Fts,
    components: &Components,
    places: &[u32],
) -> Result<Vec<LocationEquation>, LinFault> {
    let mut analysis = begun(alloc, fts, components, places)?;
    add_start(alloc, &mut analysis, &fts.initial)?;
    finish(alloc, &mut analysis, fts)?;
    let mut out = Vec::new(alloc);
    for place in places {
        if let Some(space) = analysis.spaces.get(*place as usize) {
            push_equations_at(alloc, *place, analysis.constant, space, &mut out)?;
        }
    }
    Ok(out)
}
