//! Where a component is, as clauses say it: at one of some locations, or at none of them.
//!
//! A set of places is said by its own labels or by those of all others. Both ways say exactly the set only where each place that is
//! left to the other way has a label, so a place without one, as the end behind a loop forever often is, decides which way is taken. A
//! set that has all places to which control never comes is said by the others, and one that has none of them by its own, so that
//! what is printed is kept by each step as the set is.

use crate::fault::ClauseFault;
use crate::labels::PlaceLabels;
use crate::phrases::{Phrase, Shape, negation};
use control_cubes::PlaceSet;
use st_memory::Memory;
use st_program::NameTable;
use std::alloc::Global;
use step_report::push_text;

/// At one of the locations, or at none of them.
#[derive(Drop)]
pub struct Whereabouts {
    pub within: bool,
    pub locations: Vec<u32>,
}

/// The labels of the places of a set, or `None` where one has no label.
fn labels_in(
    alloc: Global,
    labels: &[PlaceLabels],
    full: PlaceSet,
    set: PlaceSet,
) -> Result<PlaceLabels, Memory> {
    let mut all = Vec::new(alloc);
    for number in 0..128 {
        if !full.has(number) || !set.has(number) {
            continue;
        }
        match labels.get(usize::from(number)) {
            Some(Some(places)) => all.extend_from_slice(places)?,
            _ => return Ok(None),
        }
    }
    Ok(Some(all))
}

/// Whether a set that both lists of labels say is better said by its own.
fn is_said_directly(set: PlaceSet, dead: PlaceSet, own: &[u32], others: &[u32]) -> bool {
    if dead.is_empty() || set.is_within(dead) {
        return own.len() <= others.len();
    }
    if dead.is_within(set) {
        return false;
    }
    set.intersection(dead).is_empty() || own.len() <= others.len()
}

/// The shorter way to say a set that says exactly it. `dead` are the places to which control never comes.
pub(crate) fn said_places(
    alloc: Global,
    labels: &[PlaceLabels],
    full: PlaceSet,
    dead: PlaceSet,
    set: PlaceSet,
) -> Result<Whereabouts, ClauseFault> {
    let own = labels_in(alloc, labels, full, set)?;
    let others = labels_in(alloc, labels, full, full.difference(set))?;
    match (own, others) {
        (Some(own), Some(others)) => {
            if is_said_directly(set, dead, &own, &others) {
                Ok(Whereabouts {
                    within: true,
                    locations: own,
                })
            } else {
                Ok(Whereabouts {
                    within: false,
                    locations: others,
                })
            }
        }
        (Some(own), None) => Ok(Whereabouts {
            within: true,
            locations: own,
        }),
        (None, Some(others)) => Ok(Whereabouts {
            within: false,
            locations: others,
        }),
        (None, None) => Err(ClauseFault::Unsaid),
    }
}

/// That control is at one of the locations.
fn at_one(alloc: Global, names: &NameTable, locations: &[u32]) -> Result<Phrase, Memory> {
    let mut text = Vec::new(alloc);
    for (number, location) in locations.iter().enumerate() {
        if number > 0 {
            push_text(&mut text, b" \\/ ")?;
        }
        push_text(&mut text, b"at ")?;
        if let Some(label) = names.location_name(*location) {
            push_text(&mut text, label.as_bytes())?;
        }
    }
    let shape = match locations.len() {
        1 => Shape::Atom,
        _ => Shape::Disjunction,
    };
    Ok(Phrase { text, shape })
}

impl Whereabouts {
    /// That control is there (`positive`), or that it isn't.
    pub fn phrase(
        &self,
        alloc: Global,
        names: &NameTable,
        positive: bool,
    ) -> Result<Phrase, Memory> {
        let at_one = at_one(alloc, names, &self.locations)?;
        if self.within == positive {
            Ok(at_one)
        } else {
            negation(alloc, &at_one)
        }
    }
}
