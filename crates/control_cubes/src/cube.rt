//! Cubes, and which states are in them.

use crate::fault::CubeFault;
use crate::layout::Layout;
use crate::place_set::PlaceSet;
use crate::rows::{is_parallel, tidy};
use crate::state::State;
use st_linear::Lin;
use std::alloc::Global;

/// A set of states: of each component the places where it may be, of some boolean variables the value, by rising number, and rows
/// that are at least 0. Of parallel rows only the tightest stands there.
#[derive(Drop)]
pub struct Cube {
    pub places: Vec<PlaceSet>,
    pub truths: Vec<(u32, bool)>,
    pub rows: Vec<Lin>,
}

/// Whether each component is at one of its places.
fn are_at(places: &[PlaceSet], at: &[u8]) -> bool {
    for (component, set) in places.iter().enumerate() {
        match at.get(component) {
            Some(place) if set.has(*place) => {}
            _ => return false,
        }
    }
    true
}

/// Whether each set lies within the other cube's.
fn are_within(places: &[PlaceSet], others: &[PlaceSet]) -> bool {
    for (component, set) in places.iter().enumerate() {
        match others.get(component) {
            Some(other) if set.is_within(*other) => {}
            _ => return false,
        }
    }
    true
}

/// Whether a row follows from one of the rows that is parallel to it.
fn is_implied(row: &Lin, rows: &[Lin]) -> bool {
    for other in rows {
        if is_parallel(row, other) && other.constant() <= row.constant() {
            return true;
        }
    }
    false
}

fn are_implied(rows: &[Lin], others: &[Lin]) -> bool {
    for row in rows {
        if !is_implied(row, others) {
            return false;
        }
    }
    true
}

fn have_values(truths: &[(u32, bool)], state: &State) -> bool {
    for (variable, value) in truths {
        if state.truth(*variable) != *value {
            return false;
        }
    }
    true
}

fn are_listed(truths: &[(u32, bool)], others: &[(u32, bool)]) -> bool {
    for truth in truths {
        if !others.contains(truth) {
            return false;
        }
    }
    true
}

fn hold(rows: &[Lin], state: &State) -> bool {
    for row in rows {
        match state.value(row) {
            Some(value) if value >= 0 => {}
            _ => return false,
        }
    }
    true
}

impl Cube {
    /// The cube of all states.
    pub fn everything(alloc: Global, layout: &Layout) -> Result<Cube, CubeFault> {
        Ok(Cube {
            places: Vec::from_slice(alloc, layout.full())?,
            truths: Vec::new(alloc),
            rows: Vec::new(alloc),
        })
    }

    /// Whether a state is in the cube. One in which a row's value is too large isn't.
    pub fn contains(&self, state: &State) -> bool {
        are_at(&self.places, &state.places)
            && have_values(&self.truths, state)
            && hold(&self.rows, state)
    }

    /// Whether the other cube lies within this one, as far as one literal implies another.
    pub fn covers(&self, other: &Cube) -> bool {
        are_within(&other.places, &self.places)
            && are_listed(&self.truths, &other.truths)
            && are_implied(&self.rows, &other.rows)
    }

    /// The value that a boolean variable has in all states of the cube, where the cube says it.
    pub fn truth(&self, variable: u32) -> Option<bool> {
        for (other, value) in &self.truths {
            if *other == variable {
                return Some(*value);
            }
        }
        None
    }

    /// Whether the row is one of the cube's.
    pub fn has_row(&self, row: &Lin) -> bool {
        for held in &self.rows {
            if is_parallel(held, row) && held.constant() == row.constant() {
                return true;
            }
        }
        false
    }

    /// Whether a row of the cube speaks of the variable.
    pub fn speaks_of(&self, variable: u32) -> bool {
        for row in &self.rows {
            for entry in row.entries() {
                if entry.0 == variable {
                    return true;
                }
            }
        }
        false
    }

    /// How many literals the cube has: components that aren't free, boolean variables and rows.
    pub fn size(&self, layout: &Layout) -> usize {
        let mut size = self.truths.len().saturating_add(self.rows.len());
        for (component, set) in self.places.iter().enumerate() {
            if layout.full().get(component) != Some(set) {
                size = size.saturating_add(1);
            }
        }
        size
    }

    /// The states of the cube in which the component is at one of these places.
    pub fn keep_places(&mut self, component: u32, places: PlaceSet) {
        if let Some(set) = self.places.get_mut(component as usize) {
            *set = set.intersection(places);
        }
    }

    /// Puts a component's places in the place of those that it had.
    pub fn set_places(&mut self, component: u32, places: PlaceSet) {
        if let Some(set) = self.places.get_mut(component as usize) {
            *set = places;
        }
    }

    /// The places of a component.
    pub fn places_of(&self, component: u32) -> PlaceSet {
        match self.places.get(component as usize) {
            Some(set) => *set,
            None => PlaceSet::EMPTY,
        }
    }

    /// The states of the cube in which a boolean variable has this value. Where the cube says another, that is forgotten.
    pub fn push_truth(&mut self, variable: u32, value: bool) -> Result<(), CubeFault> {
        for pair in &mut self.truths {
            if pair.0 == variable {
                pair.1 = value;
                return Ok(());
            }
        }
        self.truths.push((variable, value))?;
        self.truths.sort_by_key(|pair| pair.0)?;
        Ok(())
    }

    /// The states of the cube in which the row is at least 0. A row without variables is left out.
    pub fn push_row(&mut self, alloc: Global, row: &Lin) -> Result<(), CubeFault> {
        if row.entries().is_empty() {
            return Ok(());
        }
        let row = tidy(alloc, row)?;
        for other in &mut self.rows {
            if is_parallel(other, &row) {
                if row.constant() < other.constant() {
                    *other = row;
                }
                return Ok(());
            }
        }
        self.rows.push(row)?;
        Ok(())
    }
}
