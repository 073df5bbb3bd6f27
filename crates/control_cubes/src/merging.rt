//! Cubes joined: those that another covers are left out, and two that differ in the places of one component alone become one.
//!
//! This is the consensus of two cubes where it covers both (Quine, A way to simplify truth functions, 1955).

use crate::cube::Cube;
use crate::place_set::PlaceSet;
use st_memory::Memory;
use std::alloc::Global;

/// Whether the cubes have the same rows, in any order.
fn have_same_rows(cube: &Cube, other: &Cube) -> bool {
    if cube.rows.len() != other.rows.len() {
        return false;
    }
    for row in &cube.rows {
        if !other.has_row(row) {
            return false;
        }
    }
    true
}

/// The one component at which the lists of sets differ.
fn only_difference(places: &[PlaceSet], others: &[PlaceSet]) -> Option<(usize, PlaceSet)> {
    let mut found = None;
    for (component, other) in others.iter().enumerate() {
        if places.get(component) != Some(other) {
            if found.is_some() {
                return None;
            }
            found = Some((component, *other));
        }
    }
    found
}

impl Cube {
    /// Takes the other cube in where this one covers it, or where both differ in the places of one component alone.
    pub fn take_in(&mut self, other: &Cube) -> bool {
        if self.covers(other) {
            return true;
        }
        if self.truths != other.truths || !have_same_rows(self, other) {
            return false;
        }
        match only_difference(&self.places, &other.places) {
            Some((component, set)) => {
                if let Some(held) = self.places.get_mut(component) {
                    *held = held.union(set);
                }
                true
            }
            None => false,
        }
    }
}

/// Takes a cube into one of those that stand there, if one takes it.
fn is_taken(cubes: &mut Vec<Cube>, cube: &Cube) -> bool {
    for held in cubes {
        if held.take_in(cube) {
            return true;
        }
    }
    false
}

/// Takes each cube into one of those before it, and leaves out those that it covers.
fn merged_once(alloc: Global, cubes: Vec<Cube>) -> Result<Vec<Cube>, Memory> {
    let mut out = Vec::with_capacity(alloc, cubes.len())?;
    for cube in cubes {
        if !is_taken(&mut out, &cube) {
            out.retain(|held| !cube.covers(held));
            out.push(cube)?;
        }
    }
    Ok(out)
}

/// The cubes joined, until none can be joined with another. Together they have the states that they had.
pub fn merged(alloc: Global, cubes: Vec<Cube>) -> Result<Vec<Cube>, Memory> {
    let mut rest = cubes;
    for _ in 0..rest.len() {
        let before = rest.len();
        rest = merged_once(alloc, rest)?;
        if rest.len() == before {
            return Ok(rest);
        }
    }
    Ok(rest)
}
