//! States and steps that were found, the last ones, which may answer other questions without a search.

use crate::lemma::{Allowed, Lemma};
use crate::posed::holds;
use crate::prover::narrowed;
use crate::setting::Setting;
use control_cubes::{Cube, Layout, State};
use st_form::SharedForm;
use st_memory::Memory;
use std::alloc::Global;
use std::collections::VecDeque;

/// As many steps between states are kept.
const MOST_PASSAGES: usize = 300;

/// As many states are kept.
const MOST_STATES: usize = 64;

/// A step that was found, from one state to another.
#[derive(Drop)]
pub(crate) struct Passage {
    pub(crate) from: State,
    to: State,
    pub(crate) step: u32,
    /// How many lemmas were looked at where it begins, and the numbers of those that are false there. Lemmas keep their numbers and what
    /// they say, so each is looked at once.
    seen: usize,
    broken: Vec<u32>,
}

impl Passage {
    /// Whether it leads into the cube from outside it.
    pub(crate) fn enters(&self, cube: &Cube) -> bool {
        cube.contains(&self.to) && !cube.contains(&self.from)
    }

    /// Whether a lemma that may be used is false where it begins, among those that were looked at.
    fn is_excluded(&self, lemmas: &[Lemma], allowed: Allowed<'_>) -> bool {
        for number in &self.broken {
            let place = *number as usize;
            if let Some(lemma) = lemmas.get(place)
                && allowed.has(place, lemma)
            {
                return true;
            }
        }
        false
    }

    /// Looks at the other lemmas, up to the first that may be used and is false where it begins; and whether there is one.
    fn meets_broken(
        &mut self,
        setting: &Setting<'_>,
        lemmas: &[Lemma],
        allowed: Allowed<'_>,
    ) -> Result<bool, Memory> {
        for (number, lemma) in lemmas.iter().enumerate().skip(self.seen) {
            self.seen = self.seen.saturating_add(1);
            if lemma.stands && !holds(setting, lemma, &self.from) {
                self.broken.push(narrowed(number))?;
                if allowed.has(number, lemma) {
                    return Ok(true);
                }
            }
        }
        Ok(false)
    }

    /// Whether all lemmas that may be used hold where it begins.
    pub(crate) fn begins_within(
        &mut self,
        setting: &Setting<'_>,
        lemmas: &[Lemma],
        allowed: Allowed<'_>,
    ) -> Result<bool, Memory> {
        if self.is_excluded(lemmas, allowed) {
            return Ok(false);
        }
        Ok(!self.meets_broken(setting, lemmas, allowed)?)
    }
}

/// What was found last, and first states of runs that were found.
#[derive(Drop)]
pub(crate) struct Known {
    passages: VecDeque<Passage>,
    states: VecDeque<State>,
    starts: Vec<State>,
}

/// Whether the formulas are true in a state.
fn are_true(layout: &Layout, forms: &[SharedForm], state: &State) -> bool {
    for form in forms {
        if !state.satisfies(layout, form.get()) {
            return false;
        }
    }
    true
}

impl Known {
    pub(crate) fn new(alloc: Global) -> Known {
        Known {
            passages: VecDeque::new(alloc),
            states: VecDeque::new(alloc),
            starts: Vec::new(alloc),
        }
    }

    /// How many steps are kept.
    pub(crate) fn passages(&self) -> usize {
        self.passages.len()
    }

    /// The step with a number, from 0; the one that was found last has the highest.
    pub(crate) fn passage(&self, number: usize) -> Option<&Passage> {
        self.passages.get(number)
    }

    /// The same, to look at more lemmas.
    pub(crate) fn passage_mut(&mut self, number: usize) -> Option<&mut Passage> {
        self.passages.get_mut(number)
    }

    /// The last state that was found in which the formulas are true.
    pub(crate) fn state(&self, layout: &Layout, forms: &[SharedForm]) -> Option<&State> {
        for state in self.states.iter().rev() {
            if are_true(layout, forms, state) {
                return Some(state);
            }
        }
        None
    }

    /// A first state of runs in the cube.
    pub(crate) fn start_in(&self, cube: &Cube) -> Option<&State> {
        for state in &self.starts {
            if cube.contains(state) {
                return Some(state);
            }
        }
        None
    }

    pub(crate) fn keep_state(&mut self, state: State) -> Result<(), Memory> {
        if self.states.len() >= MOST_STATES {
            let _ = self.states.pop_front();
        }
        self.states.push_back(state)?;
        Ok(())
    }

    pub(crate) fn keep_start(&mut self, state: State) -> Result<(), Memory> {
        self.starts.push(state)?;
        Ok(())
    }

    pub(crate) fn keep_passage(
        &mut self,
        alloc: Global,
        from: State,
        to: State,
        step: u32,
    ) -> Result<(), Memory> {
        if self.passages.len() >= MOST_PASSAGES {
            let _ = self.passages.pop_front();
        }
        self.passages.push_back(Passage {
            from,
            to,
            step,
            seen: 0,
            broken: Vec::new(alloc),
        })?;
        Ok(())
    }
}
