//! Cubes that are to be blocked, the lowest level first.
//!
//! A cube at a level is blocked when no step enters it from states that are reached by fewer steps; else the cube before that step is
//! to be blocked one level below (Bradley 2011; the queue of Een, Mishchenko and Brayton 2011). Cubes are lifted exactly, so a cube in
//! which a run begins is the beginning of a run into the first one.

use crate::answer::{Answer, Entry, Why};
use crate::prover::narrowed;
use crate::search::Search;
use control_cubes::{Cube, CubeFault, State};
use std::alloc::Global;
use std::collections::BTreeSet;

/// As many rounds are made at most for one cube.
const MOST_ROUNDS: u32 = 10_000_000;

/// A cube that is to be blocked, and the one that a step leads into from it, with the step.
#[derive(Drop)]
struct Obligation {
    cube: Cube,
    into: Option<(u32, u32)>,
}

/// The cubes that are to be blocked by number, and which are to be blocked at which level.
#[derive(Drop)]
struct Queue {
    obligations: Vec<Obligation>,
    waiting: BTreeSet<(u32, u32)>,
    top: u32,
}

/// What became of a cube that was to be blocked.
#[derive(Drop)]
pub(crate) enum Blocking {
    Done,
    /// A run begins in the state and goes into the cube by these steps.
    Run(State, Vec<u32>),
    /// Nothing is known of this cube at this level.
    Stopped(Why, Cube, u32),
}

impl Queue {
    /// The steps from a cube into the first one.
    fn steps_from(&self, alloc: Global, number: u32) -> Result<Vec<u32>, CubeFault> {
        let mut steps = Vec::new(alloc);
        let mut at = number;
        for _ in 0..self.obligations.len() {
            match self.obligations.get(at as usize) {
                Some(
                    Obligation {
                        cube: _,
                        into: Some((next, step)),
                    },
                ) => {
                    steps.push(*step)?;
                    at = *next;
                }
                _ => return Ok(steps),
            }
        }
        Ok(steps)
    }

    /// Adds a cube, and gives its number.
    fn push(&mut self, cube: Cube, into: Option<(u32, u32)>) -> Result<u32, CubeFault> {
        let number = narrowed(self.obligations.len());
        self.obligations.push(Obligation { cube, into })?;
        Ok(number)
    }

    /// Lets a cube wait for a level, up to the highest.
    fn wait(&mut self, level: u32, number: u32) -> Result<(), CubeFault> {
        if level <= self.top {
            self.waiting.insert((level, number))?;
        }
        Ok(())
    }
}

impl Search<'_> {
    /// Whether a lemma of the level or above has the cube in its own.
    pub fn is_covered(&self, cube: &Cube, level: u32) -> bool {
        for lemma in &self.lemmas {
            if lemma.stands
                && lemma.level >= level
                && let Some(held) = &lemma.cube
                && held.covers(cube)
            {
                return true;
            }
        }
        false
    }

    /// A run into the first cube through the one with a number, where a state to which runs come is in it.
    fn run_into(
        &self,
        alloc: Global,
        queue: &Queue,
        number: u32,
        cube: &Cube,
    ) -> Result<Option<Blocking>, CubeFault> {
        match (self.reach.way_into(alloc, cube)?, self.reach.first()) {
            (Some(mut steps), Some(first)) => {
                let mut more = queue.steps_from(alloc, number)?;
                steps.append(&mut more)?;
                Ok(Some(Blocking::Run(first.copy(alloc)?, steps)))
            }
            _ => Ok(None),
        }
    }

    /// What is known of a cube in whose states a run may begin.
    fn at_beginning(
        &mut self,
        alloc: Global,
        queue: &Queue,
        number: u32,
        level: u32,
    ) -> Result<Option<Blocking>, CubeFault> {
        let Some(obligation) = queue.obligations.get(number as usize) else {
            return Ok(None);
        };
        if let Some(run) = self.run_into(alloc, queue, number, &obligation.cube)? {
            return Ok(Some(run));
        }
        match self.solver.begins_in(alloc, &obligation.cube)? {
            Answer::Never(_) => Ok(None),
            Answer::State(state) => {
                let steps = queue.steps_from(alloc, number)?;
                Ok(Some(Blocking::Run(state, steps)))
            }
            Answer::Unknown(why) => {
                let cube = obligation.cube.copy(alloc)?;
                Ok(Some(Blocking::Stopped(why, cube, level)))
            }
        }
    }

    /// The cube before a step waits for the level below, and the one that it leads into for its own again.
    fn step_back(
        &mut self,
        alloc: Global,
        queue: &mut Queue,
        level: u32,
        number: u32,
        before: (State, u32),
    ) -> Result<Option<Blocking>, CubeFault> {
        let Some(obligation) = queue.obligations.get(number as usize) else {
            return Ok(None);
        };
        let Some(cube) = self.lifted(alloc, &obligation.cube, &before.0, before.1)? else {
            return Ok(None);
        };
        let below = queue.push(cube, Some((number, before.1)))?;
        self.obligations = self.obligations.saturating_add(1);
        queue.wait(level.saturating_sub(1), below)?;
        queue.wait(level, number)?;
        self.at_beginning(alloc, queue, below, level.saturating_sub(1))
    }

    /// Makes a lemma of a cube that no step enters, and lets the cube wait for the level above the lemma's.
    fn learn(
        &mut self,
        alloc: Global,
        queue: &mut Queue,
        level: u32,
        number: u32,
    ) -> Result<(), CubeFault> {
        let Some(obligation) = queue.obligations.get(number as usize) else {
            return Ok(());
        };
        let larger = self.generalized(alloc, &obligation.cube, level)?;
        let highest = self.highest_closed(alloc, &larger, level, queue.top)?;
        self.add(alloc, larger, highest)?;
        queue.wait(highest.saturating_add(1), number)
    }

    /// Blocks the cube that waits for a level, or goes one step back from it.
    fn block_next(
        &mut self,
        alloc: Global,
        queue: &mut Queue,
        level: u32,
        number: u32,
    ) -> Result<Option<Blocking>, CubeFault> {
        let Some(obligation) = queue.obligations.get(number as usize) else {
            return Ok(None);
        };
        if self.is_covered(&obligation.cube, level) {
            queue.wait(level.saturating_add(1), number)?;
            return Ok(None);
        }
        let entry = self
            .solver
            .enter(alloc, &self.lemmas, &obligation.cube, level)?;
        match entry {
            Entry::Unknown(why) => {
                let cube = obligation.cube.copy(alloc)?;
                Ok(Some(Blocking::Stopped(why, cube, level)))
            }
            Entry::Before(state, step) => self.step_back(
                alloc,
                queue,
                level,
                number,
                (state, step),
            ),
            Entry::Blocked(_) => {
                self.learn(alloc, queue, level, number)?;
                Ok(None)
            }
        }
    }

    /// Blocks a cube up to a level, or finds a run into it.
    pub(crate) fn block(
        &mut self,
        alloc: Global,
        cube: Cube,
        top: u32,
    ) -> Result<Blocking, CubeFault> {
        let mut queue = Queue {
            obligations: Vec::new(alloc),
            waiting: BTreeSet::new(alloc),
            top,
        };
        let first = queue.push(cube, None)?;
        self.block_first(alloc, &mut queue, first)
    }

    /// Blocks the first cube of a queue up to its level, or finds a run into it.
    fn block_first(
        &mut self,
        alloc: Global,
        queue: &mut Queue,
        first: u32,
    ) -> Result<Blocking, CubeFault> {
        if let Some(end) = self.at_beginning(alloc, queue, first, 0)? {
            return Ok(end);
        }
        let top = queue.top;
        queue.wait(top, first)?;
        for _ in 0..MOST_ROUNDS {
            let Some((level, number)) = queue.waiting.pop_first() else {
                return Ok(Blocking::Done);
            };
            if let Some(end) = self.block_next(alloc, queue, level, number)? {
                return Ok(end);
            }
        }
        Ok(Blocking::Done)
    }
}
