//! What states to which runs come say of a chain from which an item was left out: most items can't be, and one of these states or a step
//! between them says so before anything is asked.

use crate::chain::{Chain, ChainItem};
use control_cubes::State;
use invariant_search::{Edge, Search};
use st_memory::Memory;
use std::alloc::Global;

/// The distance of states in which neither the goal nor an item holds.
const NONE: usize = usize::MAX;

impl Chain {
    /// How far a state is from the goal: 0 where it holds, else one more than the number of the first item that holds.
    fn distance(&self, search: &Search<'_>, state: &State) -> usize {
        let layout = search.layout();
        if !state.satisfies(layout, self.goal.here.get()) {
            return 0;
        }
        let first = self
            .items
            .iter()
            .position(|item| state.satisfies(layout, item.trial.form.get()));
        match first {
            Some(number) => number.saturating_add(1),
            None => NONE,
        }
    }

    /// How far the states are to which runs come.
    fn distances(&self, alloc: Global, search: &Search<'_>) -> Result<Vec<usize>, Memory> {
        let mut out = Vec::with_capacity(alloc, search.reach().states().len())?;
        for state in search.reach().states() {
            out.push(self.distance(search, state))?;
        }
        Ok(out)
    }

    /// Whether the wait begins in a state that is neither in the goal nor in an item.
    fn misses_one(&self, search: &Search<'_>, distances: &[usize]) -> bool {
        for (state, distance) in search.reach().states().iter().zip(distances) {
            if *distance == NONE && state.satisfies(search.layout(), self.start.get()) {
                return true;
            }
        }
        false
    }

    /// Whether one of the items from a number on is refuted by a step that leads astray.
    fn strays(&self, search: &Search<'_>, distances: &[usize], first: usize) -> bool {
        for (number, item) in self.items.iter().enumerate().skip(first) {
            if item.awaited().is_none() && leads_astray(search, distances, number, item) {
                return true;
            }
        }
        false
    }

    /// Whether a state to which runs come, or a step between such states, says that this is no chain, where only the items from a number
    /// on have to be looked at.
    pub(crate) fn is_refuted(
        &self,
        alloc: Global,
        search: &Search<'_>,
        first: usize,
    ) -> Result<bool, Memory> {
        let distances = self.distances(alloc, search)?;
        Ok(self.misses_one(search, &distances) || self.strays(search, &distances, first))
    }
}

/// Whether a step leads from the item with a number to nothing nearer, nor to where it may stay.
fn leads_astray(search: &Search<'_>, distances: &[usize], number: usize, item: &ChainItem) -> bool {
    for edge in search.reach().edges() {
        if !matches!(distances.get(edge.to), Some(distance) if *distance <= number)
            && holds_at(search, item, edge.from)
            && !stays(search, item, *edge)
        {
            return true;
        }
    }
    false
}

/// Whether an item holds in the state with a number.
fn holds_at(search: &Search<'_>, item: &ChainItem, number: usize) -> bool {
    match search.reach().states().get(number) {
        Some(state) => state.satisfies(search.layout(), item.trial.form.get()),
        None => false,
    }
}

/// Whether a step may leave an item as it is, and does.
fn stays(search: &Search<'_>, item: &ChainItem, edge: Edge) -> bool {
    match search.steps().get(edge.step as usize) {
        Some(step) => item.trial.may_stay(step.transition) && holds_at(search, item, edge.to),
        None => true,
    }
}
