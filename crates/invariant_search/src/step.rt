//! The modes of a system, with the places that they move control from and to.

use crate::prover::{FIRST_HINT, narrowed};
use control_cubes::{Layout, Place};
use st_form::{Change, Form, Part, SharedForm, TransName};
use st_linear::Lin;
use st_memory::Memory;
use std::alloc::Global;
use transition_system::{Fts, Mode, Transition};

/// A mode, and where it finds and leaves the components that it moves. The entry of a cooperation moves the component around it to
/// inside, and the children from where they aren't active; its exit the other way round.
#[derive(Drop)]
pub struct Step<'a> {
    pub name: TransName,
    /// The transition's number in the system.
    pub transition: u32,
    /// The mode's number in the transition, from 1.
    pub mode: u32,
    pub before: Vec<Place>,
    pub behind: Vec<Place>,
    /// That control is where the mode starts, and its guard.
    pub enabled: SharedForm,
    pub change: &'a Change,
}

/// A row's truth value where it has no variables.
fn constant_truth(row: &Lin, equal: bool) -> Option<bool> {
    if !row.entries().is_empty() {
        return None;
    }
    if equal {
        Some(row.constant() == 0)
    } else {
        Some(row.constant() >= 0)
    }
}

/// The truth value of a formula that its constants alone decide.
#[cycle(known)]
fn known_truth(form: &Form) -> Option<bool> {
    match form {
        Form::True => Some(true),
        Form::False => Some(false),
        Form::Row(row) => constant_truth(row, false),
        Form::Equal(row) => constant_truth(row, true),
        Form::BoolVar(_) | Form::At(_) => None,
        Form::Not(part) => known_truth(part).map(|truth| !truth),
        Form::And(parts) => known_of_all(parts, false),
        Form::Or(parts) => known_of_all(parts, true),
    }
}

/// The truth value of a conjunction or a disjunction: that which one part decides for all, or the other where all parts have it.
#[cycle(known)]
fn known_of_all(parts: &[Form], deciding: bool) -> Option<bool> {
    let mut all = true;
    for part in parts {
        match known_truth(part) {
            Some(truth) if truth == deciding => return Some(deciding),
            Some(_) => {}
            None => all = false,
        }
    }
    if all { Some(!deciding) } else { None }
}

fn places_of(alloc: Global, layout: &Layout, locations: &[u32]) -> Result<Vec<Place>, Memory> {
    let mut out = Vec::new(alloc);
    for location in locations {
        if let Some(place) = layout.of_location(*location) {
            out.push(place)?;
        }
    }
    Ok(out)
}

/// Adds the places of the components of others where these aren't active, and another component's place inside the cooperation.
fn push_cooperation(
    layout: &Layout,
    cooperation: u32,
    children: &[Place],
    inactive: &mut Vec<Place>,
    inside: &mut Vec<Place>,
) -> Result<(), Memory> {
    for child in children {
        inactive.push(Place {
            component: child.component,
            number: layout.inactive(child.component as usize),
        })?;
    }
    if let Some(place) = layout.of_cooperation(cooperation) {
        inside.push(place)?;
    }
    Ok(())
}

/// The places before and behind a mode of a part of a statement.
fn moved_places(
    alloc: Global,
    layout: &Layout,
    name: TransName,
    mode: &Mode,
) -> Result<(Vec<Place>, Vec<Place>), Memory> {
    let from = places_of(alloc, layout, &mode.at)?;
    let to = places_of(alloc, layout, &mode.change.enters)?;
    let mut before = Vec::from_slice(alloc, &from)?;
    let mut behind = Vec::from_slice(alloc, &to)?;
    if let TransName::Step { occ, part } = name {
        match part {
            Part::Whole => {}
            Part::Entry => push_cooperation(layout, occ, &to, &mut before, &mut behind)?,
            Part::Exit => push_cooperation(layout, occ, &from, &mut behind, &mut before)?,
        }
    }
    Ok((before, behind))
}

/// That control is where the mode starts, and its guard.
fn enabled_form(alloc: Global, mode: &Mode) -> Result<Form, Memory> {
    let mut parts = Vec::new(alloc);
    for location in &mode.at {
        parts.push(Form::At(*location))?;
    }
    parts.push(mode.guard.copy(alloc)?)?;
    Ok(Form::And(parts))
}

fn step_of<'a>(
    alloc: Global,
    layout: &Layout,
    transition: u32,
    name: TransName,
    number: u32,
    mode: &'a Mode,
    hint: u32,
) -> Result<Step<'a>, Memory> {
    let (before, behind) = moved_places(alloc, layout, name, mode)?;
    let enabled = SharedForm::new(alloc, enabled_form(alloc, mode)?, hint)?;
    Ok(Step {
        name,
        transition,
        mode: number.saturating_add(1),
        before,
        behind,
        enabled,
        change: &mode.change,
    })
}

/// Appends the modes of a transition whose guard isn't false.
fn push_steps<'a>(
    alloc: Global,
    layout: &Layout,
    number: u32,
    transition: &'a Transition,
    out: &mut Vec<Step<'a>>,
) -> Result<(), Memory> {
    for (place, mode) in transition.modes.iter().enumerate() {
        let place = narrowed(place);
        if known_truth(&mode.guard) != Some(false) {
            let hint = FIRST_HINT.saturating_add(narrowed(out.len()));
            out.push(step_of(alloc, layout, number, transition.name, place, mode, hint)?)?;
        }
    }
    Ok(())
}

/// The modes of all transitions but idling.
pub(crate) fn all_steps<'a>(
    alloc: Global,
    layout: &Layout,
    system: &'a Fts,
) -> Result<Vec<Step<'a>>, Memory> {
    let mut out = Vec::new(alloc);
    for (number, transition) in system.transitions.iter().enumerate() {
        let number = narrowed(number);
        if transition.name != TransName::Idle {
            push_steps(alloc, layout, number, transition, &mut out)?;
        }
    }
    Ok(out)
}

impl Step<'_> {
    /// What the mode makes of a boolean variable.
    pub fn truth_behind(&self, variable: u32) -> Option<&Form> {
        for (changed, form) in &self.change.truths {
            if *changed == variable {
                return Some(form);
            }
        }
        None
    }

    /// Whether the mode moves a component.
    pub fn moves(&self, component: usize) -> bool {
        for place in &self.behind {
            if place.component as usize == component {
                return true;
            }
        }
        false
    }
}
