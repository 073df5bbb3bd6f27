//! What each component is at, where control is at these locations. A component without a location of its own that has a child
//! which runs is inside the child's cooperation.

use control_states::{Alternative, Components};
use st_memory::Memory;
use std::alloc::Global;

fn put(standing: &mut [Option<Alternative>], component: u32, place: Alternative) {
    if let Some(slot) = standing.get_mut(component as usize) {
        if slot.is_none() {
            *slot = Some(place);
        }
    }
}

fn runs(standing: &[Option<Alternative>], component: u32) -> bool {
    match standing.get(component as usize) {
        Some(place) => place.is_some(),
        None => false,
    }
}

/// What each component is at, by its number; `None` where it doesn't run. Children stand behind the component around them.
pub(crate) fn standing(
    alloc: Global,
    components: &Components,
    fronts: &[u32],
) -> Result<Vec<Option<Alternative>>, Memory> {
    let count = components.count();
    let mut out = Vec::new(alloc);
    out.resize(count as usize, None)?;
    for location in fronts {
        if let Some(component) = components.owners().get(*location as usize) {
            put(&mut out, *component, Alternative::Location(*location));
        }
    }
    for behind in 0..count {
        let component = count.saturating_sub(behind).saturating_sub(1);
        if let (true, Some((outer, occurrence))) = (
            runs(&out, component),
            components.around(component),
        ) {
            put(&mut out, outer, Alternative::Inside(occurrence));
        }
    }
    Ok(out)
}
