//! The search for an invariant of a program and its monitor, and what it says of the program.

use crate::claim::WaitingFor;
use crate::monitor::Monitor;
use control_cubes::{Cube, CubeFault, PlaceSet};
use invariant_search::{ALWAYS, Move, Observer, Outcome, Run, Search, Why};
use st_form::TransName;
use st_memory::Memory;
use std::alloc::Global;

/// What never is, by an inductive invariant: cubes in which the program never is, which are inductive together, and of each level from
/// level 1 up those in which it never is while that level is watched.
#[derive(Drop)]
pub struct Kept {
    pub always: Vec<Cube>,
    pub of_levels: Vec<Vec<Cube>>,
}

/// What the search says of a claim.
#[derive(Drop)]
pub enum Watched {
    /// It holds, by what never is.
    Kept(Kept),
    /// It fails at the end of this run.
    Refuted(Run),
    /// Nothing is known; with a cube that was left to be excluded while something is watched, if there was one.
    Unknown(Why, Option<Cube>),
}

/// The moves of the program among those of both together.
fn own_moves(alloc: Global, moves: &[Move]) -> Result<Vec<Move>, Memory> {
    let mut out = Vec::new(alloc);
    for taken in moves {
        if taken.name != TransName::Idle {
            out.push(*taken)?;
        }
    }
    Ok(out)
}

/// The cube without what it says of the monitor.
fn without_monitor(alloc: Global, monitor: &Monitor, cube: &Cube) -> Result<Cube, Memory> {
    let mut out = cube.copy(alloc)?;
    out.places.truncate(monitor.component() as usize);
    Ok(out)
}

impl Kept {
    /// Takes what is never so where the monitor is at these places.
    fn take(&mut self, alloc: Global, watched: PlaceSet, cube: Cube) -> Result<(), Memory> {
        if watched.has(0) {
            self.always.push(cube)?;
            return Ok(());
        }
        for (number, cubes) in self.of_levels.iter_mut().enumerate() {
            let level = u8::try_from(number.saturating_add(1)).unwrap_or(u8::MAX);
            if watched.has(level) {
                cubes.push(cube.copy(alloc)?)?;
            }
        }
        Ok(())
    }
}

/// What the lemmas that hold always say of the program. What is never so while the monitor is free is never so.
fn said_by_lemmas(
    alloc: Global,
    search: &Search<'_>,
    monitor: &Monitor,
    levels: usize,
) -> Result<Kept, Memory> {
    let mut out = Kept {
        always: Vec::new(alloc),
        of_levels: Vec::with_capacity(alloc, levels)?,
    };
    for _ in 0..levels {
        out.of_levels.push(Vec::new(alloc))?;
    }
    for lemma in search.lemmas() {
        if lemma.stands
            && lemma.level == ALWAYS
            && let Some(cube) = &lemma.cube
        {
            let watched = cube.places_of(monitor.component());
            out.take(alloc, watched, without_monitor(alloc, monitor, cube)?)?;
        }
    }
    Ok(out)
}

/// The cube that was left, without what it says of the monitor.
fn left(
    alloc: Global,
    monitor: &Monitor,
    cube: Option<(Cube, u32)>,
) -> Result<Option<Cube>, Memory> {
    match cube {
        Some((cube, _)) => Ok(Some(without_monitor(alloc, monitor, &cube)?)),
        None => Ok(None),
    }
}

/// Looks for an inductive invariant by which a claim holds, or for a run on which it fails. The search goes over the program and the
/// claim's monitor together.
pub fn watch<O: Observer>(
    alloc: Global,
    search: &mut Search<'_>,
    monitor: &Monitor,
    claim: WaitingFor<'_>,
    observer: &O,
) -> Result<Watched, CubeFault> {
    let goal = monitor.goal(alloc, claim)?;
    match search.ic3(alloc, &goal, observer)? {
        Outcome::Inductive => Ok(Watched::Kept(said_by_lemmas(
            alloc,
            search,
            monitor,
            claim.highest(),
        )?)),
        Outcome::Refuted(run) => Ok(Watched::Refuted(Run {
            moves: own_moves(alloc, &run.moves)?,
            store: run.store,
        })),
        Outcome::Unknown { why, left: cube } => {
            Ok(Watched::Unknown(why, left(alloc, monitor, cube)?))
        }
    }
}
