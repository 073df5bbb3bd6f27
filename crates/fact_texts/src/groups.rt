//! Facts by variable and value.

use constant_facts::{Constant, Fact};
use st_memory::Memory;
use std::alloc::Global;

/// The locations where a variable has a value.
#[derive(Drop)]
pub(crate) struct Group {
    pub(crate) variable: u32,
    pub(crate) value: Constant,
    pub(crate) places: Vec<u32>,
}

/// Adds a fact to the group of its variable and value.
fn push_fact(alloc: Global, groups: &mut Vec<Group>, fact: &Fact) -> Result<(), Memory> {
    let place = groups.iter().position(|group| group.variable == fact.variable
        && group.value == fact.value);
    match place.and_then(|place| groups.get_mut(place)) {
        Some(group) => group.places.push(fact.place)?,
        None => groups.push(Group {
            variable: fact.variable,
            value: fact.value,
            places: vec![in alloc; fact.place]?,
        })?,
    }
    Ok(())
}

/// The facts in groups, in the order in which each group's first fact comes.
pub(crate) fn groups(alloc: Global, facts: &[Fact]) -> Result<Vec<Group>, Memory> {
    let mut out = Vec::new(alloc);
    for fact in facts {
        push_fact(alloc, &mut out, fact)?;
    }
    Ok(out)
}
