//! Cubes as formulas over a program's locations.
//!
//! A set of places is the disjunction of its places or the negation of the disjunction of all others, whichever is shorter. A child of
//! a cooperation that isn't active is at none of its alternatives, so that place is said by the others.

use crate::cube::Cube;
use crate::layout::Layout;
use crate::place_set::PlaceSet;
use control_states::{Alternative, Component, Components};
use st_form::Form;
use st_memory::Memory;
use std::alloc::Global;

/// The first child of a cooperation: whoever is inside the cooperation has it at one of its alternatives.
fn child_of(components: &Components, cooperation: u32) -> Option<u32> {
    for child in 0..components.count() {
        if matches!(components.around(child), Some(way) if way.1 == cooperation) {
            return Some(child);
        }
    }
    None
}

/// Appends that a component is at one of its alternatives, those of a child within it included. The number of levels bounds how deep
/// cooperations stand in one another.
#[cycle(inside)]
fn push_alternative(
    components: &Components,
    alternative: Alternative,
    levels: u32,
    out: &mut Vec<Form>,
) -> Result<(), Memory> {
    match alternative {
        Alternative::Location(location) => {
            out.push(Form::At(location))?;
            Ok(())
        }
        Alternative::Inside(cooperation) => push_inside(components, cooperation, levels, out),
    }
}

#[cycle(inside)]
fn push_inside(
    components: &Components,
    cooperation: u32,
    levels: u32,
    out: &mut Vec<Form>,
) -> Result<(), Memory> {
    if levels == 0 {
        return Ok(());
    }
    if let Some(child) = child_of(components, cooperation) {
        for alternative in components.alternatives(child) {
            push_alternative(components, *alternative, levels - 1, out)?;
        }
    }
    Ok(())
}

/// Being at one of the places that are in the set.
fn at_one(
    alloc: Global,
    components: &Components,
    component: u32,
    set: PlaceSet,
) -> Result<Form, Memory> {
    let mut ways = Vec::new(alloc);
    let levels = components.count();
    for (number, alternative) in components.alternatives(component).iter().enumerate() {
        if number < 128 && set.has(number as u8) {
            push_alternative(components, *alternative, levels, &mut ways)?;
        }
    }
    Ok(Form::Or(ways))
}

/// Whether the set has the place of a child that isn't active.
fn has_inactive(components: &Components, component: u32, set: PlaceSet) -> bool {
    let count = components.alternatives(component).len();
    count < 128 && set.has(count as u8)
}

/// The negation of a formula.
pub fn negation(alloc: Global, form: Form) -> Result<Form, Memory> {
    Ok(Form::Not(Box::new(alloc, form)?))
}

/// That a component is at one of the places of a set.
pub fn set_form(
    alloc: Global,
    components: &Components,
    layout: &Layout,
    component: u32,
    set: PlaceSet,
) -> Result<Form, Memory> {
    let others = layout.full_of(component as usize).difference(set);
    if others.is_empty() {
        return Ok(Form::True);
    }
    let shorter = others.len() < set.len() && !has_inactive(components, component, others);
    if shorter || has_inactive(components, component, set) {
        let elsewhere = at_one(alloc, components, component, others)?;
        return negation(alloc, elsewhere);
    }
    at_one(alloc, components, component, set)
}

/// The sets of places as formulas, without those of components that are free.
fn push_places(
    alloc: Global,
    components: &Components,
    layout: &Layout,
    places: &[PlaceSet],
    out: &mut Vec<Form>,
) -> Result<(), Memory> {
    for (component, set) in places.iter().enumerate() {
        if layout.full().get(component) != Some(set) {
            let component = u32::try_from(component).unwrap_or(u32::MAX);
            out.push(set_form(alloc, components, layout, component, *set)?)?;
        }
    }
    Ok(())
}

/// A boolean variable's value as a formula.
pub fn truth_form(alloc: Global, variable: u32, value: bool) -> Result<Form, Memory> {
    if value {
        Ok(Form::BoolVar(variable))
    } else {
        negation(alloc, Form::BoolVar(variable))
    }
}

impl Cube {
    /// That a state is in the cube.
    pub fn form(
        &self,
        alloc: Global,
        components: &Components,
        layout: &Layout,
    ) -> Result<Form, Memory> {
        let mut parts = Vec::new(alloc);
        push_places(alloc, components, layout, &self.places, &mut parts)?;
        for (variable, value) in &self.truths {
            parts.push(truth_form(alloc, *variable, *value)?)?;
        }
        for row in &self.rows {
            parts.push(Form::Row(row.copy(alloc)?))?;
        }
        Ok(Form::And(parts))
    }

    /// That a state isn't in the cube: a clause.
    pub fn clause(
        &self,
        alloc: Global,
        components: &Components,
        layout: &Layout,
    ) -> Result<Form, Memory> {
        negation(alloc, self.form(alloc, components, layout)?)
    }
}
