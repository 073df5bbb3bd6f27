//! What decisions of components say of being at a location.
//!
//! A location is decided where its own component is decided, or where a component around that one is decided to be
//! elsewhere than inside the cooperation that leads to it. The table of all locations is made once for each set of
//! decisions, so that a formula's location literals are looked up and not walked.

ghost use Rattle.std.specs.Prelude.{◌≡◌, ℕ, length, IfOk, slice_index_or, slice_index, slice_get, None, Some, false, if◌then◌else◌};
ghost use Rattle.control_states.specs.Control.{ComponentFacts, ControlFacts, component_at};
ghost use Rattle.control_states.specs.Place.{cut_off, elsewhere, place, place_in, is_inside, is_location};

use crate::alternative::Alternative;
use crate::component::Component;
use st_memory::Memory;
use std::alloc::Global;

fn elsewhere(cases: &[Option<Alternative>], component: u32, cooperation: u32) -> bool
    ensures { result ≡ elsewhere cooperation (slice_index_or cases.now component None) }
{
    match cases.get(component as usize) {
        Some(Some(Alternative::Inside(other))) => *other != cooperation,
        Some(Some(Alternative::Location(_))) => true,
        Some(None) => false,
        None => false,
    }
}

/// The component around a child and its cooperation; `None` for a process, and where there is no such component.
pub fn around_at(parts: &[Component], component: u32) -> Option<(u32, u32)>
    ensures { result ≡ (component_at parts.now component).around }
{
    match parts.get(component as usize) {
        Some(part) => part.around(),
        None => None,
    }
}

/// What a component can be at; nothing where there is no such component.
pub fn alternatives_at(parts: &[Component], component: u32) -> &[Alternative]
    ensures { result.now ≡ (component_at parts.now component).alternatives }
{
    match parts.get(component as usize) {
        Some(part) => part.alternatives(),
        None => &[],
    }
}

/// Whether a component around this one is decided to be elsewhere than inside the cooperation that leads to it.
fn cut_off(parts: &[Component], cases: &[Option<Alternative>], component: u32) -> bool
    ensures { result ≡ cut_off parts.now cases.now (length parts.now) component }
{
    let mut inner = component;
    let mut left = parts.len();
    while left > 0 {
        left -= 1;
        match around_at(parts, inner) {
            None => return false,
            Some(way) => {
                if elsewhere(cases, way.0, way.1) {
                    return true;
                }
                inner = way.0;
            }
        }
    }
    false
}

fn place_in(
    parts: &[Component],
    cases: &[Option<Alternative>],
    location: usize,
    component: u32,
) -> Option<bool>
    ensures { result ≡ place_in parts.now cases.now location component }
{
    match cases.get(component as usize) {
        Some(Some(Alternative::Location(other))) => Some(*other as usize == location),
        Some(Some(Alternative::Inside(_))) => Some(false),
        Some(None) => undecided(parts, cases, component),
        None => undecided(parts, cases, component),
    }
}

fn undecided(parts: &[Component], cases: &[Option<Alternative>], component: u32) -> Option<bool>
    ensures { result ≡ (if cut_off parts.now cases.now (length parts.now) component then Some false else None) }
{
    if cut_off(parts, cases, component) {
        Some(false)
    } else {
        None
    }
}

/// What decisions say of being at each location, given the component of each.
pub fn places_of(
    alloc: Global,
    parts: &[Component],
    owners: &[u32],
    cases: &[Option<Alternative>],
) -> Result<Vec<Option<bool>>, Memory>
    ensures { IfOk result (λ v. (l : ℕ) → slice_index_or v.items l None
        ≡ place (record { components = parts.now; owners = owners.now }) cases.now l) }
{
    let mut out = Vec::with_capacity(alloc, owners.len())?;
    for (location, owner) in owners.iter().enumerate() {
        out.push(place_in(parts, cases, location, *owner))?;
    }
    Ok(out)
}
