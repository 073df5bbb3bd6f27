//! Generalization: of a cube that no step enters a larger one of which that is so too.
//!
//! Literals are left out one by one, then rows are weakened and places added, as long as no run begins in the cube and no step enters
//! it (Bradley and Manna, Checking safety by inductive generalization of counterexamples to induction, 2007). A state from which a step
//! does is blocked itself where that is possible, up to three times (Hassan, Bradley and Somenzi, Better generalization in IC3, 2013);
//! the cube of that state is generalized without looking at states before it in turn.

use crate::answer::{Answer, Entry};
use crate::enlarging::Plan;
use crate::lemma::ALWAYS;
use crate::moving::lifted;
use crate::search::Search;
use control_cubes::{Cube, CubeFault, PlaceSet, State};
use st_linear::Lin;
use std::alloc::Global;

/// As many states that lead into a cube are blocked while it is generalized.
const MOST_COUNTEREXAMPLES: u32 = 3;

/// A cube has no more rows than these when rows that follow are added.
const MOST_ROWS: usize = 24;

/// As many larger cubes are tried at most.
const MOST_TRIES: u32 = 1_000_000;

/// Whether the sum of two rows loses a variable that has the coefficients 1 and -1.
fn cancels(one: &Lin, other: &Lin) -> bool {
    for entry in one.entries() {
        if (entry.1 == 1 && other.entries().contains(&(entry.0, -1)))
            || (entry.1 == -1 && other.entries().contains(&(entry.0, 1)))
        {
            return true;
        }
    }
    false
}

/// Whether a row is over one variable, or over two with coefficients 1 and -1.
fn is_short(row: &Lin) -> bool {
    match row.entries() {
        [_] => true,
        [first, second] => first.1.unsigned_abs() == 1 && second.1.unsigned_abs() == 1,
        _ => false,
    }
}

/// Adds the sum of two rows, if it is short.
fn push_sum(alloc: Global, cube: &mut Cube, one: &Lin, other: &Lin) -> Result<(), CubeFault> {
    let sum = one.add(alloc, other)?;
    if is_short(&sum) {
        cube.push_row(alloc, &sum)
    } else {
        Ok(())
    }
}

/// Adds the short sums of a row and others that lose a variable.
fn push_sums(alloc: Global, cube: &mut Cube, one: &Lin, others: &[Lin]) -> Result<(), CubeFault> {
    for other in others {
        if cube.rows.len() <= MOST_ROWS && cancels(one, other) {
            push_sum(alloc, cube, one, other)?;
        }
    }
    Ok(())
}

/// The rows behind the one at a place.
fn rows_behind(rows: &[Lin], place: usize) -> &[Lin] {
    match rows.get(place.saturating_add(1)..) {
        Some(others) => others,
        None => &[],
    }
}

/// Adds the short rows that are the sum of two of these rows, one variable of which goes away (Fourier and Motzkin's elimination:
/// Schrijver, Theory of Linear and Integer Programming, 1986, section 12.2).
fn push_all_sums(alloc: Global, cube: &mut Cube, rows: &[Lin]) -> Result<(), CubeFault> {
    for (place, one) in rows.iter().enumerate() {
        push_sums(alloc, cube, one, rows_behind(rows, place))?;
    }
    Ok(())
}

/// Adds the short rows that are the sum of two rows of the cube.
fn push_joined(alloc: Global, cube: &mut Cube) -> Result<(), CubeFault> {
    let held = cube.copy(alloc)?;
    push_all_sums(alloc, cube, &held.rows)
}

/// Adds places to those of each component.
fn add_places(places: &mut [PlaceSet], more: &[PlaceSet]) {
    for (set, more) in places.iter_mut().zip(more) {
        *set = set.union(*more);
    }
}

/// Adds rows that follow from two, and once more from those, and all places that no chain of steps leads to.
fn enrich(alloc: Global, cube: &mut Cube, dead: &[PlaceSet]) -> Result<(), CubeFault> {
    push_joined(alloc, cube)?;
    push_joined(alloc, cube)?;
    add_places(&mut cube.places, dead);
    Ok(())
}

/// The cube with rows that follow from its own, and with all places that no chain of steps leads to.
fn enriched(alloc: Global, cube: &Cube, dead: &[PlaceSet]) -> Result<Cube, CubeFault> {
    let mut out = cube.copy(alloc)?;
    enrich(alloc, &mut out, dead)?;
    Ok(out)
}

impl Search<'_> {
    /// Whether a run may begin in the cube, or is known to come to it.
    fn may_begin_in(&mut self, alloc: Global, cube: &Cube) -> Result<bool, CubeFault> {
        if self.reach.meets(cube) {
            return Ok(true);
        }
        let answer = self.solver.begins_in(alloc, cube)?;
        Ok(!matches!(answer, Answer::Never(_)))
    }

    /// Whether no step enters the cube at a level, as far as is known.
    pub(crate) fn is_closed(
        &mut self,
        alloc: Global,
        cube: &Cube,
        level: u32,
    ) -> Result<bool, CubeFault> {
        let entry = self.solver.enter(alloc, &self.lemmas, cube, level)?;
        Ok(matches!(entry, Entry::Blocked(_)))
    }

    /// The highest level up to the last at which no step enters the cube, where none does at the first.
    pub(crate) fn highest_closed(
        &mut self,
        alloc: Global,
        cube: &Cube,
        first: u32,
        last: u32,
    ) -> Result<u32, CubeFault> {
        for level in first..last {
            if !self.is_closed(alloc, cube, level.saturating_add(1))? {
                return Ok(level);
            }
        }
        Ok(last)
    }

    /// The cube before a step that leads from a state into a cube.
    pub(crate) fn lifted(
        &self,
        alloc: Global,
        cube: &Cube,
        state: &State,
        step: u32,
    ) -> Result<Option<Cube>, CubeFault> {
        let setting = &self.solver.setting;
        match setting.steps.get(step as usize) {
            Some(step) => Ok(Some(lifted(alloc, &setting.layout, step, cube, state)?)),
            None => Ok(None),
        }
    }

    /// Whether no run begins in the cube and no step enters it.
    fn is_out_of_reach(
        &mut self,
        alloc: Global,
        cube: &Cube,
        level: u32,
    ) -> Result<bool, CubeFault> {
        Ok(!self.may_begin_in(alloc, cube)? && self.is_closed(alloc, cube, level)?)
    }

    /// The next larger cube of a plan.
    fn next_cube(
        &self,
        alloc: Global,
        plan: &mut Plan,
        cube: &Cube,
    ) -> Result<Option<Cube>, CubeFault> {
        plan.next_cube(alloc, &self.solver.setting.layout, &self.pool, cube)
    }

    /// The plan of larger cubes for a cube, which is made with the rows that follow from its own.
    fn planned(&self, alloc: Global, cube: &Cube) -> Result<(Cube, Plan), CubeFault> {
        let larger = enriched(alloc, cube, &self.solver.setting.dead)?;
        let plan = Plan::new(alloc, &self.pool, &larger)?;
        Ok((larger, plan))
    }

    /// A larger cube that is out of reach, for one that is.
    fn generalized_alone(
        &mut self,
        alloc: Global,
        cube: &Cube,
        level: u32,
    ) -> Result<Cube, CubeFault> {
        let (mut larger, mut plan) = self.planned(alloc, cube)?;
        for _ in 0..MOST_TRIES {
            let Some(other) = self.next_cube(alloc, &mut plan, &larger)? else {
                return Ok(larger);
            };
            if self.is_out_of_reach(alloc, &other, level)? {
                larger = other;
            }
        }
        Ok(larger)
    }

    /// Blocks the cube before a step one level below, if it is out of reach there.
    fn block_before(
        &mut self,
        alloc: Global,
        cube: &Cube,
        level: u32,
        state: &State,
        step: u32,
    ) -> Result<bool, CubeFault> {
        if level < 2 || level == ALWAYS {
            return Ok(false);
        }
        let below = level.saturating_sub(1);
        let Some(before) = self.lifted(alloc, cube, state, step)? else {
            return Ok(false);
        };
        if !self.is_out_of_reach(alloc, &before, below)? {
            return Ok(false);
        }
        let larger = self.generalized_alone(alloc, &before, below)?;
        let highest = self.highest_closed(alloc, &larger, below, level)?;
        self.add(alloc, larger, highest)?;
        Ok(true)
    }

    /// Whether no run begins in the cube and no step enters it, once states from which a step does are blocked as far as they can be.
    fn can_be_blocked(
        &mut self,
        alloc: Global,
        cube: &Cube,
        level: u32,
    ) -> Result<bool, CubeFault> {
        if self.may_begin_in(alloc, cube)? {
            return Ok(false);
        }
        for _ in 0..MOST_COUNTEREXAMPLES {
            match self.solver.enter(alloc, &self.lemmas, cube, level)? {
                Entry::Blocked(_) => return Ok(true),
                Entry::Unknown(_) => return Ok(false),
                Entry::Before(state, step) => {
                    if !self.block_before(alloc, cube, level, &state, step)? {
                        return Ok(false);
                    }
                }
            }
        }
        self.is_closed(alloc, cube, level)
    }

    /// A larger cube that no step enters and in which no run begins, for one of which that is so.
    pub(crate) fn generalized(
        &mut self,
        alloc: Global,
        cube: &Cube,
        level: u32,
    ) -> Result<Cube, CubeFault> {
        let (mut larger, mut plan) = self.planned(alloc, cube)?;
        for _ in 0..MOST_TRIES {
            let Some(other) = self.next_cube(alloc, &mut plan, &larger)? else {
                return Ok(larger);
            };
            if self.can_be_blocked(alloc, &other, level)? {
                larger = other;
            }
        }
        Ok(larger)
    }
}
