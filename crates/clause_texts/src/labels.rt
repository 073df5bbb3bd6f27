//! By which locations each place of a component is said.

use control_states::{Alternative, Components};
use st_memory::Memory;
use st_program::NameTable;
use std::alloc::Global;

/// The locations that say where control is at a place, or `None` where one of them has no label. A location is itself; being inside a
/// cooperation is being at one of the places of its first child.
pub(crate) type PlaceLabels = Option<Vec<u32>>;

/// Of each component the labels of its places in order, but those of a child that isn't active.
pub(crate) type LabelTable = Vec<Vec<PlaceLabels>>;

/// The first child of a cooperation.
fn first_child(components: &Components, cooperation: u32) -> Option<u32> {
    (0..components.count()).find(
        |child| matches!(components.around(*child), Some(around) if around.1 == cooperation),
    )
}

/// All labels of the places of a component.
fn labels_of_all(alloc: Global, places: &[PlaceLabels]) -> Result<PlaceLabels, Memory> {
    let mut all = Vec::new(alloc);
    for place in places {
        match place {
            Some(labels) => all.extend_from_slice(labels)?,
            None => return Ok(None),
        }
    }
    Ok(Some(all))
}

/// The labels of an alternative, where those of the components behind are known.
fn labels_of(
    alloc: Global,
    names: &NameTable,
    components: &Components,
    table: &[Vec<PlaceLabels>],
    alternative: Alternative,
) -> Result<PlaceLabels, Memory> {
    match alternative {
        Alternative::Location(location) => match names.location_name(location) {
            Some(_) => Ok(Some(vec![in alloc; location]?)),
            None => Ok(None),
        },
        Alternative::Inside(cooperation) => {
            let child = first_child(components, cooperation);
            match child.and_then(|child| table.get(child as usize)) {
                Some(places) => labels_of_all(alloc, places),
                None => Ok(None),
            }
        }
    }
}

/// The labels of the places of a component, where those of the components behind are known.
fn labels_of_component(
    alloc: Global,
    names: &NameTable,
    components: &Components,
    table: &[Vec<PlaceLabels>],
    component: u32,
) -> Result<Vec<PlaceLabels>, Memory> {
    let alternatives = components.alternatives(component);
    let mut places = Vec::with_capacity(alloc, alternatives.len())?;
    for alternative in alternatives {
        places.push(labels_of(alloc, names, components, table, *alternative)?)?;
    }
    Ok(places)
}

/// The labels of all places. Components are gone over from the last to the first, since children stand behind the component
/// around them.
pub(crate) fn label_table(
    alloc: Global,
    names: &NameTable,
    components: &Components,
) -> Result<LabelTable, Memory> {
    let mut table = Vec::with_capacity(alloc, components.parts().len())?;
    for _ in components.parts() {
        table.push(Vec::new(alloc))?;
    }
    for component in (0..components.count()).rev() {
        let places = labels_of_component(alloc, names, components, &table, component)?;
        if let Some(row) = table.get_mut(component as usize) {
            *row = places;
        }
    }
    Ok(table)
}
