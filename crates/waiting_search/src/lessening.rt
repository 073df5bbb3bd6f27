//! Fewer cubes: of each level, from the lowest up, cubes are left out one by one as long as each step leads from the level to it or to a
//! lower one. The lower levels are done before, since the less they say the easier it is to come to them; higher ones only gain.

use crate::claim::WaitingFor;
use crate::levels::{Level, Levels};
use control_cubes::{Cube, CubeFault};
use invariant_search::{ALWAYS, Allowed, Search};
use st_memory::Memory;
use std::alloc::Global;
use std::mem;

/// The cubes but the one with a number.
fn all_but(alloc: Global, cubes: &[Cube], left_out: usize) -> Result<Vec<Cube>, Memory> {
    let mut out = Vec::new(alloc);
    for (number, cube) in cubes.iter().enumerate() {
        if number != left_out {
            out.push(cube.copy(alloc)?)?;
        }
    }
    Ok(out)
}

/// How many cubes the level at a place has.
fn count_at(levels: &Levels, place: usize) -> usize {
    match levels.levels.get(place) {
        Some(level) => level.cubes.len(),
        None => 0,
    }
}

/// The level at a place without the cube with a number.
fn without(
    alloc: Global,
    search: &Search<'_>,
    claim: WaitingFor<'_>,
    levels: &Levels,
    place: usize,
    number: usize,
) -> Result<Option<Level>, CubeFault> {
    let Some(form) = claim.forms.get(place) else {
        return Ok(None);
    };
    match levels.levels.get(place) {
        Some(level) => {
            let cubes = all_but(alloc, &level.cubes, number)?;
            Ok(Some(Level::new(alloc, search, form, cubes)?))
        }
        None => Ok(None),
    }
}

/// Puts a level in the place of one, and gives that.
fn put(levels: &mut Levels, place: usize, level: Level) -> Option<Level> {
    match levels.levels.get_mut(place) {
        Some(held) => Some(mem::replace(held, level)),
        None => None,
    }
}

/// Leaves a cube of the level at a place out, if that can be.
fn leave_out(
    alloc: Global,
    search: &mut Search<'_>,
    claim: WaitingFor<'_>,
    levels: &mut Levels,
    place: usize,
    number: usize,
) -> Result<(), CubeFault> {
    let Some(fewer) = without(alloc, search, claim, levels, place, number)? else {
        return Ok(());
    };
    let Some(before) = put(levels, place, fewer) else {
        return Ok(());
    };
    let mut used = Vec::new(alloc);
    if !levels.is_kept(alloc, search, place, Allowed::From(ALWAYS), &mut used)? {
        let _ = put(levels, place, before);
    }
    Ok(())
}

/// The levels with fewer cubes.
pub fn lessened(
    alloc: Global,
    search: &mut Search<'_>,
    claim: WaitingFor<'_>,
    levels: Levels,
) -> Result<Levels, CubeFault> {
    let mut levels = levels;
    for place in (0..levels.levels.len().saturating_sub(1)).rev() {
        for number in (0..count_at(&levels, place)).rev() {
            leave_out(alloc, search, claim, &mut levels, place, number)?;
        }
    }
    Ok(levels)
}
