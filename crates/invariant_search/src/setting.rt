//! What is known of a program before anything is searched: its places, its modes, and where its runs begin.

use crate::machine::Machine;
use crate::prover::INITIAL_HINT;
use crate::step::Step;
use control_cubes::{CubeFault, Layout, Place, PlaceSet};
use control_states::Components;
use st_form::{SharedForm, Variable};
use st_memory::Memory;
use std::alloc::Global;

/// A program's places, its modes, the places that no chain of steps leads to, where control is at the beginning, and what holds then.
#[derive(Drop)]
pub(crate) struct Setting<'a> {
    pub(crate) variables: &'a [Variable],
    pub(crate) components: &'a Components,
    pub(crate) layout: Layout,
    pub(crate) steps: Vec<Step<'a>>,
    pub(crate) dead: Vec<PlaceSet>,
    pub(crate) first: Vec<Place>,
    pub(crate) initial: SharedForm,
}

/// The places that are live at the beginning: the first of each process, and of each child that it isn't active.
fn first_live(
    alloc: Global,
    components: &Components,
    layout: &Layout,
    first: &[Place],
) -> Result<Vec<PlaceSet>, Memory> {
    let mut live = Vec::with_capacity(alloc, layout.full().len())?;
    for (component, part) in components.parts().iter().enumerate() {
        if part.around().is_some() {
            live.push(PlaceSet::one(layout.inactive(component)))?;
        } else {
            live.push(PlaceSet::EMPTY)?;
        }
    }
    for place in first {
        add_place(&mut live, *place);
    }
    Ok(live)
}

fn add_place(live: &mut [PlaceSet], place: Place) {
    if let Some(set) = live.get_mut(place.component as usize) {
        *set = set.union(PlaceSet::one(place.number));
    }
}

fn is_live(live: &[PlaceSet], place: Place) -> bool {
    match live.get(place.component as usize) {
        Some(set) => set.has(place.number),
        None => false,
    }
}

fn are_live(live: &[PlaceSet], places: &[Place]) -> bool {
    for place in places {
        if !is_live(live, *place) {
            return false;
        }
    }
    true
}

/// Adds the places behind each step that starts at live places.
fn grow(live: &mut [PlaceSet], steps: &[Step<'_>]) {
    for step in steps {
        if are_live(live, &step.before) {
            for place in &step.behind {
                add_place(live, *place);
            }
        }
    }
}

/// How many places there are.
fn count_places(full: &[PlaceSet]) -> u64 {
    let mut count: u64 = 0;
    for set in full {
        count = count.saturating_add(u64::from(set.len()));
    }
    count
}

/// The places that aren't live when nothing more becomes live. Each round but the last makes a place live, so there are no more rounds
/// than places.
fn dead_places(
    alloc: Global,
    layout: &Layout,
    steps: &[Step<'_>],
    first: Vec<PlaceSet>,
) -> Result<Vec<PlaceSet>, Memory> {
    let mut live = first;
    for _ in 0..count_places(layout.full()) {
        let before = Vec::from_slice(alloc, &live)?;
        grow(&mut live, steps);
        if before.as_slice() == live.as_slice() {
            break;
        }
    }
    let mut dead = Vec::with_capacity(alloc, live.len())?;
    for (component, set) in live.iter().enumerate() {
        dead.push(layout.full_of(component).difference(*set))?;
    }
    Ok(dead)
}

impl<'a> Setting<'a> {
    /// What is known of a machine.
    pub(crate) fn new(alloc: Global, machine: Machine<'a>) -> Result<Setting<'a>, CubeFault> {
        let layout = machine.layout;
        let live = first_live(alloc, machine.components, &layout, &machine.first)?;
        let dead = dead_places(alloc, &layout, &machine.steps, live)?;
        let initial = SharedForm::new(alloc, machine.initial.copy(alloc)?, INITIAL_HINT)?;
        Ok(Setting {
            variables: machine.variables,
            components: machine.components,
            layout,
            steps: machine.steps,
            dead,
            first: machine.first,
            initial,
        })
    }
}
