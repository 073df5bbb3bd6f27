//! What states to which runs come say of a candidate, before anything is asked.
//!
//! Where a candidate holds in such a state and its helper isn't enabled, or a step leads astray, it is no item; and where neither the goal
//! nor the chain holds there, it adds something. Most candidates are judged so.

use crate::bases::Base;
use crate::candidates::Candidate;
use crate::said::Said;
use crate::saturation::Saturation;
use control_cubes::State;
use invariant_search::Search;
use st_memory::Memory;
use std::alloc::Global;

/// What the states say of a candidate.
#[derive(Clone, Copy, PartialEq, Eq)]
pub(crate) enum Witness {
    /// Its helper isn't enabled in one of them.
    Idle,
    /// A step leads from it to the state with this number, where neither the goal nor the chain holds, nor the candidate if it may stay.
    Astray(usize),
    /// Nothing against it; and whether it adds one of them to the chain.
    Fits(bool),
}

/// The numbers of the states to which runs come in which what is said holds.
fn states_of(alloc: Global, search: &Search<'_>, said: &Said) -> Result<Vec<usize>, Memory> {
    let mut out = Vec::new(alloc);
    for (number, state) in search.reach().states().iter().enumerate() {
        if state.satisfies(search.layout(), said.form.get()) {
            out.push(number)?;
        }
    }
    Ok(out)
}

/// Of each base the numbers of the states to which runs come in which it holds.
pub(crate) fn states_of_all(
    alloc: Global,
    search: &Search<'_>,
    bases: &[Base],
) -> Result<Vec<Vec<usize>>, Memory> {
    let mut out = Vec::with_capacity(alloc, bases.len())?;
    for base in bases {
        out.push(states_of(alloc, search, &base.said)?)?;
    }
    Ok(out)
}

/// Whether a transition is enabled in a state.
fn is_enabled(search: &Search<'_>, transition: u32, state: &State) -> bool {
    search.steps().iter().any(|step| {
        step.transition == transition && state.satisfies(search.layout(), step.enabled.get())
    })
}

/// A candidate: its helper, what its base says, and what it says beside that.
#[derive(Clone, Copy)]
struct Judging<'s> {
    helper: u32,
    base: &'s Said,
    tail: &'s [Said],
}

impl Judging<'_> {
    /// Whether what is said beside the base holds in a state.
    fn goes_on(&self, search: &Search<'_>, state: &State) -> bool {
        self.tail
            .iter()
            .all(|said| state.satisfies(search.layout(), said.form.get()))
    }

    /// Whether a step may leave the candidate as it is, and does, with the state behind it.
    fn stays(&self, search: &Search<'_>, step: u32, behind: &State) -> bool {
        let is_helper = match search.steps().get(step as usize) {
            Some(step) => step.transition == self.helper,
            None => false,
        };
        !is_helper
            && behind.satisfies(search.layout(), self.base.form.get())
            && self.goes_on(search, behind)
    }
}

impl Saturation<'_> {
    /// Sees in which of the states to which runs come the goal or the chain holds.
    pub(crate) fn see_settled(&mut self, alloc: Global, search: &Search<'_>) -> Result<(), Memory> {
        let mut settled = Vec::with_capacity(alloc, search.reach().states().len())?;
        for state in search.reach().states() {
            settled.push(self.has(search, state))?;
        }
        self.settled = settled;
        Ok(())
    }

    /// Whether the goal or the chain holds in the state with a number.
    fn is_settled(&self, number: usize) -> bool {
        self.settled.get(number) != Some(&false)
    }

    /// The number of a state to which a step leads astray from the one with a number.
    fn astray_from(
        &self,
        search: &Search<'_>,
        judging: Judging<'_>,
        number: usize,
    ) -> Option<usize> {
        let reach = search.reach();
        for edge in reach.edges_from(number) {
            if !self.is_settled(edge.to)
                && let Some(behind) = reach.states().get(edge.to)
                && !judging.stays(search, edge.step, behind)
            {
                return Some(edge.to);
            }
        }
        None
    }

    /// What the states with these numbers say of a candidate whose base holds in them.
    fn witness_among(
        &self,
        search: &Search<'_>,
        judging: Judging<'_>,
        numbers: &[usize],
    ) -> Witness {
        let mut adds = false;
        for number in numbers {
            if let Some(state) = search.reach().states().get(*number)
                && judging.goes_on(search, state)
            {
                if !is_enabled(search, judging.helper, state) {
                    return Witness::Idle;
                }
                if let Some(behind) = self.astray_from(search, judging, *number) {
                    return Witness::Astray(behind);
                }
                adds = adds || !self.is_settled(*number);
            }
        }
        Witness::Fits(adds)
    }

    /// What the states to which runs come say of a candidate; of one in a group nothing is said.
    pub(crate) fn witness(
        &self,
        alloc: Global,
        search: &Search<'_>,
        candidate: Candidate,
    ) -> Result<Witness, Memory> {
        if self.opened.is_empty()
            && let Some(base) = self.bases.get(candidate.base)
            && let Some(numbers) = self.holding.get(candidate.base)
            && let Some(helper) = base.helper
        {
            let tail = self.tail(alloc, candidate.width)?;
            let judging = Judging {
                helper,
                base: &base.said,
                tail: &tail,
            };
            return Ok(self.witness_among(search, judging, numbers));
        }
        Ok(Witness::Fits(false))
    }
}
