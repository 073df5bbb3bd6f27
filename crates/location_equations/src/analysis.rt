//! What is known of each location: the space of the states in which control comes there. A variable that another component changes may
//! have any value everywhere.

use crate::modes::{owner, unknown_to};
use crate::spaces::Space;
use control_states::Components;
use st_linear::{Lin, LinFault};
use std::alloc::Global;
use transition_system::Fts;

/// What is known of each location.
#[derive(Drop)]
pub(crate) struct Analysis<'a> {
    pub(crate) components: &'a Components,
    /// The number of variables, which is the column of the constant.
    pub(crate) constant: u32,
    /// Of each component the variables of which it knows nothing.
    unknown: Vec<Vec<u32>>,
    pub(crate) spaces: Vec<Space>,
}

impl Analysis<'_> {
    /// Adds a vector to the space of a location, and answers whether that has grown.
    pub(crate) fn add(
        &mut self,
        alloc: Global,
        location: u32,
        vector: Lin,
    ) -> Result<bool, LinFault> {
        match self.spaces.get_mut(location as usize) {
            Some(space) => space.add(alloc, vector),
            None => Ok(false),
        }
    }

    /// Nothing is known at a location.
    pub(crate) fn add_all(&mut self, alloc: Global, location: u32) -> Result<bool, LinFault> {
        let mut grown = false;
        for column in 0..=self.constant {
            let unit = Lin::variable(alloc, column)?;
            grown = self.add(alloc, location, unit)? || grown;
        }
        Ok(grown)
    }

    /// The variables of which the owner of a location knows nothing.
    fn unknown_at(&self, location: u32) -> &[u32] {
        let unknown = match owner(self.components, location) {
            Some(component) => self.unknown.get(component as usize),
            None => None,
        };
        match unknown {
            Some(unknown) => unknown,
            None => &[],
        }
    }

    /// The variables of which the owner of a location knows nothing may have any value there.
    pub(crate) fn add_unknown(&mut self, alloc: Global, location: u32) -> Result<bool, LinFault> {
        let columns = Vec::from_slice(alloc, self.unknown_at(location))?;
        let mut grown = false;
        for column in columns {
            let unit = Lin::variable(alloc, column)?;
            grown = self.add(alloc, location, unit)? || grown;
        }
        Ok(grown)
    }
}

/// Of each component the variables of which it knows nothing.
fn unknown_to_each(
    alloc: Global,
    fts: &Fts,
    components: &Components,
) -> Result<Vec<Vec<u32>>, LinFault> {
    let mut out = Vec::new(alloc);
    for component in 0..components.count() {
        out.push(unknown_to(alloc, fts, components, component)?)?;
    }
    Ok(out)
}

/// Control comes nowhere, but that nothing can be said of locations that aren't asked for.
pub(crate) fn begun<'a>(
    alloc: Global,
    fts: &Fts,
    components: &'a Components,
    places: &[u32],
) -> Result<Analysis<'a>, LinFault> {
    let Ok(constant) = u32::try_from(fts.truths.len()) else {
        return Err(LinFault::TooLarge);
    };
    let unknown = unknown_to_each(alloc, fts, components)?;
    let mut spaces = Vec::new(alloc);
    for _ in 0..fts.locations {
        spaces.push(Space::empty(alloc))?;
    }
    let mut analysis = Analysis {
        components,
        constant,
        unknown,
        spaces,
    };
    for location in 0..fts.locations {
        if !places.contains(&location) {
            analysis.add_all(alloc, location)?;
        }
    }
    Ok(analysis)
}
