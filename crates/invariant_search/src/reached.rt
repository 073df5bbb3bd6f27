//! States to which runs come: steps are taken from a first state, breadth first.
//!
//! A cube that has one of them can't be blocked, so nothing is asked to see that, and most of what generalization tries is refused so.
//! Where such a cube is to be blocked, or the goal is false in such a state, the steps that lead there are a run.

use crate::moving::behind_step;
use crate::prover::narrowed;
use crate::setting::Setting;
use control_cubes::{Cube, State};
use st_form::Form;
use st_memory::Memory;
use std::alloc::Global;

/// Steps are taken until there are so many states.
const MOST: usize = 1_000;

/// No step is taken from a state with a number of this size or more, so that none becomes too large for a state.
const LARGE: u128 = 1 << 60;

/// A step between states to which runs come: the number of the state in which it is taken, its own, and that of the state behind it.
#[derive(Clone, Copy, Debug, PartialEq, Eq)]
pub struct Edge {
    pub from: usize,
    pub step: u32,
    pub to: usize,
}

/// States to which runs come, a first one at the beginning, and steps between them, by the state in which they are taken.
#[derive(Drop)]
pub struct Reach {
    states: Vec<State>,
    edges: Vec<Edge>,
    /// Of each state the edge by which it was reached; none of the first.
    entries: Vec<Option<Edge>>,
    /// Of each state from which steps were taken the number of its first edge.
    firsts: Vec<usize>,
}

/// Whether steps may be taken from a state.
fn is_small(state: &State) -> bool {
    state
        .numbers
        .iter()
        .all(|number| number.unsigned_abs() < LARGE)
}

/// The state behind the step with a number, where that can be taken.
fn state_behind(
    alloc: Global,
    setting: &Setting<'_>,
    state: &State,
    number: u32,
) -> Result<Option<State>, Memory> {
    match setting.steps.get(number as usize) {
        Some(step) if state.satisfies(&setting.layout, step.enabled.get()) => {
            behind_step(alloc, setting, state, number)
        }
        _ => Ok(None),
    }
}

impl Reach {
    /// No states.
    pub(crate) fn new(alloc: Global) -> Reach {
        Reach {
            states: Vec::new(alloc),
            edges: Vec::new(alloc),
            entries: Vec::new(alloc),
            firsts: Vec::new(alloc),
        }
    }

    /// The states by number.
    pub fn states(&self) -> &[State] {
        self.states.as_slice()
    }

    /// The state from which steps are taken.
    pub(crate) fn first(&self) -> Option<&State> {
        self.states.first()
    }

    /// The steps between them.
    pub fn edges(&self) -> &[Edge] {
        self.edges.as_slice()
    }

    /// The steps from the state with a number.
    pub fn edges_from(&self, number: usize) -> &[Edge] {
        let end = self.edges.len();
        let first = self.firsts.get(number).copied().unwrap_or(end);
        let next = self.firsts.get(number.saturating_add(1));
        self.edges
            .get(first..next.copied().unwrap_or(end))
            .unwrap_or(&[])
    }

    /// Takes the step with a number from the state with a number.
    fn step(
        &mut self,
        alloc: Global,
        setting: &Setting<'_>,
        from: usize,
        step: u32,
    ) -> Result<(), Memory> {
        let behind = match self.states.get(from) {
            Some(state) => state_behind(alloc, setting, state, step)?,
            None => None,
        };
        match behind {
            Some(behind) => self.go(behind, from, step),
            None => Ok(()),
        }
    }

    /// Takes in the state behind a step, if it wasn't reached before, and the step.
    fn go(&mut self, behind: State, from: usize, step: u32) -> Result<(), Memory> {
        let known = self.states.iter().position(|state| *state == behind);
        let to = known.unwrap_or(self.states.len());
        let edge = Edge { from, step, to };
        self.edges.push(edge)?;
        if known.is_none() {
            self.states.push(behind)?;
            self.entries.push(Some(edge))?;
        }
        Ok(())
    }

    /// Takes all steps from the state with a number.
    fn steps(&mut self, alloc: Global, setting: &Setting<'_>, from: usize) -> Result<(), Memory> {
        self.firsts.push(self.edges.len())?;
        if matches!(self.states.get(from), Some(state) if is_small(state)) {
            for number in 0..setting.steps.len() {
                self.step(alloc, setting, from, narrowed(number))?;
            }
        }
        Ok(())
    }

    /// Takes steps from a first state on.
    pub(crate) fn begin(
        &mut self,
        alloc: Global,
        setting: &Setting<'_>,
        first: State,
    ) -> Result<(), Memory> {
        self.states.push(first)?;
        self.entries.push(None)?;
        for from in 0..MOST {
            if from < self.states.len() && self.states.len() < MOST {
                self.steps(alloc, setting, from)?;
            }
        }
        Ok(())
    }

    /// Whether one of the states is in the cube.
    pub fn meets(&self, cube: &Cube) -> bool {
        self.states.iter().any(|state| cube.contains(state))
    }

    /// The steps from the first state to one in the cube, if there is one.
    pub(crate) fn way_into(&self, alloc: Global, cube: &Cube) -> Result<Option<Vec<u32>>, Memory> {
        let end = self.states.iter().position(|state| cube.contains(state));
        self.way_to(alloc, end)
    }

    /// The steps from the first state to one in which a formula is false, if there is one.
    pub(crate) fn way_out_of(
        &self,
        alloc: Global,
        setting: &Setting<'_>,
        form: &Form,
    ) -> Result<Option<Vec<u32>>, Memory> {
        let end = self
            .states
            .iter()
            .position(|state| !state.satisfies(&setting.layout, form));
        self.way_to(alloc, end)
    }

    /// The steps from the first state to the one with a number, if there is one.
    fn way_to(&self, alloc: Global, end: Option<usize>) -> Result<Option<Vec<u32>>, Memory> {
        let Some(mut at) = end else {
            return Ok(None);
        };
        let mut steps = Vec::new(alloc);
        for _ in 0..self.states.len() {
            if let Some(Some(edge)) = self.entries.get(at) {
                steps.push(edge.step)?;
                at = edge.from;
            }
        }
        steps.reverse();
        Ok(Some(steps))
    }
}
