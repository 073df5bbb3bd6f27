//! Where a component may go round while it waits: the simple cycles of its control.

use control_cubes::{Place, PlaceSet};
use invariant_search::Step;
use st_memory::Memory;
use std::alloc::Global;

/// The longest cycle that is looked for.
const LONGEST: usize = 8;

/// The most cycles.
const MOST: usize = 64;

/// The place of a component among those that a step finds or leaves.
fn place_in(places: &[Place], component: u32) -> Option<u8> {
    for place in places {
        if place.component == component {
            return Some(place.number);
        }
    }
    None
}

/// The moves of a component between its places.
fn edges(alloc: Global, steps: &[Step<'_>], component: u32) -> Result<Vec<(u8, u8)>, Memory> {
    let mut out = Vec::new(alloc);
    for step in steps {
        if let Some(from) = place_in(&step.before, component)
            && let Some(to) = place_in(&step.behind, component)
            && !out.contains(&(from, to))
        {
            out.push((from, to))?;
        }
    }
    out.sort()?;
    Ok(out)
}

/// A walk from its first place.
#[derive(Drop)]
struct Walk {
    first: u8,
    last: u8,
    passed: PlaceSet,
    length: usize,
}

/// Takes a step on from a walk: a cycle where it closes, else a longer walk. Each cycle is walked from its lowest place.
fn go_on(
    walk: &Walk,
    to: u8,
    walks: &mut Vec<Walk>,
    out: &mut Vec<PlaceSet>,
) -> Result<(), Memory> {
    if to == walk.first && walk.length > 1 {
        if out.len() < MOST && !out.contains(&walk.passed) {
            out.push(walk.passed)?;
        }
        return Ok(());
    }
    if to > walk.first && !walk.passed.has(to) && walk.length < LONGEST && walks.len() < MOST {
        walks.push(Walk {
            first: walk.first,
            last: to,
            passed: walk.passed.union(PlaceSet::one(to)),
            length: walk.length.saturating_add(1),
        })?;
    }
    Ok(())
}

/// The sets of places of a component's inner cycles, the shortest first. The outer loop, through its first place, isn't one of them.
pub(crate) fn cycles(
    alloc: Global,
    steps: &[Step<'_>],
    component: u32,
    places: usize,
) -> Result<Vec<PlaceSet>, Memory> {
    let edges = edges(alloc, steps, component)?;
    let mut out = Vec::new(alloc);
    let mut walks = Vec::new(alloc);
    for first in 1..places.min(128) {
        if let Ok(first) = u8::try_from(first) {
            walks.push(Walk {
                first,
                last: first,
                passed: PlaceSet::one(first),
                length: 1,
            })?;
        }
    }
    for _ in 0..MOST.saturating_mul(LONGEST).saturating_mul(places) {
        let Some(walk) = walks.pop() else {
            break;
        };
        for (_, to) in edges.iter().filter(|edge| edge.0 == walk.last) {
            go_on(&walk, *to, &mut walks, &mut out)?;
        }
    }
    out.sort_by_key(|cycle| cycle.len())?;
    Ok(out)
}
