//! Which locations are drawn, and by which nodes.

use control_states::{Alternative, Component, Components};
use formula_words::{Vocabulary, formula};
use st_memory::Memory;
use std::alloc::Global;
use transition_system::{Fts, Mode};

/// Whether a mode can be taken in some state, as far as its guard alone tells: a loop without end has a second mode that can't.
pub(crate) fn may_be_taken(alloc: Global, words: &Vocabulary, mode: &Mode) -> Result<bool, Memory> {
    let guard = formula(alloc, words, &mode.guard)?;
    Ok(guard.as_str() != "false")
}

fn touch(touched: &mut [bool], locations: &[u32]) {
    for location in locations {
        if let Some(mark) = touched.get_mut(*location as usize) {
            *mark = true;
        }
    }
}

/// The first location that a component can be at: there a process begins.
pub(crate) fn first_location(component: &Component) -> Option<u32> {
    for alternative in component.alternatives() {
        if let Alternative::Location(location) = alternative {
            return Some(*location);
        }
    }
    None
}

/// Whether something leads from each location or to it, or a process begins there.
pub(crate) fn touched_locations(
    alloc: Global,
    words: &Vocabulary,
    system: &Fts,
    components: &Components,
) -> Result<Vec<bool>, Memory> {
    let mut touched = vec![in alloc; false; system.locations as usize]?;
    for transition in &system.transitions {
        for mode in &transition.modes {
            if may_be_taken(alloc, words, mode)? {
                touch(&mut touched, &mode.at);
                touch(&mut touched, &mode.change.enters);
            }
        }
    }
    for component in components.parts() {
        if let Some(location) = first_location(component) {
            touch(&mut touched, &[location]);
        }
    }
    Ok(touched)
}
