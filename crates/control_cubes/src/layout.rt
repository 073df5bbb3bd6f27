//! The places of a program's components, by number.

use crate::fault::CubeFault;
use crate::place_set::{Place, PlaceSet};
use control_states::{Alternative, Component, Components};
use std::alloc::Global;

/// Of each component all its places, of each location the place that is control's there, and of each cooperation the place of being
/// inside it.
#[derive(Drop)]
pub struct Layout {
    full: Vec<PlaceSet>,
    locations: Vec<Place>,
    cooperations: Vec<(u32, Place)>,
}

/// The place of a location among the alternatives of its component.
fn number_of(alternatives: &[Alternative], wanted: Alternative) -> Option<u8> {
    for (number, alternative) in alternatives.iter().enumerate() {
        if *alternative == wanted {
            return u8::try_from(number).ok();
        }
    }
    None
}

/// The places of a component; a child that isn't active has one behind its alternatives.
fn places_of(part: &Component) -> Option<PlaceSet> {
    let count = part.alternatives().len();
    if part.around().is_some() {
        PlaceSet::first(count.saturating_add(1))
    } else {
        PlaceSet::first(count)
    }
}

fn all_places(alloc: Global, parts: &[Component]) -> Result<Vec<PlaceSet>, CubeFault> {
    let mut full = Vec::with_capacity(alloc, parts.len())?;
    for part in parts {
        match places_of(part) {
            Some(places) => full.push(places)?,
            None => return Err(CubeFault::TooLarge),
        }
    }
    Ok(full)
}

/// Of each location its place.
fn all_locations(alloc: Global, components: &Components) -> Result<Vec<Place>, CubeFault> {
    let mut locations = Vec::with_capacity(alloc, components.owners().len())?;
    for (location, owner) in components.owners().iter().enumerate() {
        let wanted = Alternative::Location(u32::try_from(location).unwrap_or(u32::MAX));
        match number_of(components.alternatives(*owner), wanted) {
            Some(number) => locations.push(Place {
                component: *owner,
                number,
            })?,
            None => return Err(CubeFault::TooLarge),
        }
    }
    Ok(locations)
}

/// The places of being inside a cooperation, of one component.
fn push_cooperations(
    component: u32,
    alternatives: &[Alternative],
    out: &mut Vec<(u32, Place)>,
) -> Result<(), CubeFault> {
    for (number, alternative) in alternatives.iter().enumerate() {
        if let Alternative::Inside(cooperation) = alternative
            && let Ok(number) = u8::try_from(number)
        {
            out.push((*cooperation, Place { component, number }))?;
        }
    }
    Ok(())
}

impl Layout {
    /// The layout of a program's components. `TooLarge` where a component has more than 128 places.
    pub fn new(alloc: Global, components: &Components) -> Result<Layout, CubeFault> {
        let full = all_places(alloc, components.parts())?;
        let locations = all_locations(alloc, components)?;
        let mut cooperations = Vec::new(alloc);
        for component in 0..components.count() {
            push_cooperations(
                component,
                components.alternatives(component),
                &mut cooperations,
            )?;
        }
        Ok(Layout {
            full,
            locations,
            cooperations,
        })
    }

    /// Of each component all its places.
    pub fn full(&self) -> &[PlaceSet] {
        self.full.as_slice()
    }

    /// All places of a component; none where there is no such component.
    pub fn full_of(&self, component: usize) -> PlaceSet {
        match self.full.get(component) {
            Some(places) => *places,
            None => PlaceSet::EMPTY,
        }
    }

    /// The last place of a component: of a child, that it isn't active.
    pub fn inactive(&self, component: usize) -> u8 {
        let count = self.full_of(component).len().min(128);
        count.saturating_sub(1) as u8
    }

    /// The place of an alternative.
    pub fn of_alternative(&self, alternative: Alternative) -> Option<Place> {
        match alternative {
            Alternative::Location(location) => self.of_location(location),
            Alternative::Inside(cooperation) => self.of_cooperation(cooperation),
        }
    }

    /// The place of a location.
    pub fn of_location(&self, location: u32) -> Option<Place> {
        self.locations.get(location as usize).copied()
    }

    /// The place of being inside a cooperation, by its occurrence.
    pub fn of_cooperation(&self, cooperation: u32) -> Option<Place> {
        for (other, place) in &self.cooperations {
            if *other == cooperation {
                return Some(*place);
            }
        }
        None
    }
}
