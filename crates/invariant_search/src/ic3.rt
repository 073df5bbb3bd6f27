//! Frames, one level after the other, until one is inductive.

use crate::answer::{Answer, Entry, Move, Outcome, Run, Why};
use crate::blocking::Blocking;
use crate::lemma::{ALWAYS, Allowed};
use crate::observing::Observer;
use crate::prover::passing;
use crate::search::Search;
use crate::step::Step;
use control_cubes::{Cube, CubeFault, State, negation};
use st_form::{Form, SharedForm};
use st_memory::Memory;
use st_program::{Datum, Variable};
use std::alloc::Global;

/// There are at most so many levels.
const MOST_LEVELS: u32 = 100;

/// As many states in which the goal is false are blocked on one level.
const MOST_ROUNDS: u32 = 1_000_000;

/// The value of the variable at a place in a state.
fn datum_of(variable: &Variable, place: usize, state: &State) -> Datum {
    if variable.truth {
        Datum::Truth(state.truths.get(place) == Some(&true))
    } else {
        Datum::Number(state.numbers.get(place).copied().unwrap_or(0))
    }
}

/// The values of the variables in a state.
fn store_of(alloc: Global, variables: &[Variable], state: &State) -> Result<Vec<Datum>, Memory> {
    let mut store = Vec::with_capacity(alloc, variables.len())?;
    for (place, variable) in variables.iter().enumerate() {
        store.push(datum_of(variable, place, state))?;
    }
    Ok(store)
}

/// The moves of steps with these numbers.
fn moves_of(alloc: Global, all: &[Step<'_>], numbers: &[u32]) -> Result<Vec<Move>, Memory> {
    let mut moves = Vec::with_capacity(alloc, numbers.len())?;
    for number in numbers {
        if let Some(step) = all.get(*number as usize) {
            moves.push(Move {
                name: step.name,
                mode: step.mode,
            })?;
        }
    }
    Ok(moves)
}

/// What a level comes to.
#[derive(Drop)]
enum Level {
    /// The goal holds in all states that are reached by so many steps.
    Closed,
    Over(Outcome),
}

fn unknown(why: Why) -> Outcome {
    Outcome::Unknown { why, left: None }
}

impl Search<'_> {
    /// The run that begins in a state and goes on by these steps.
    fn run_of(&self, alloc: Global, state: &State, steps: &[u32]) -> Result<Run, Memory> {
        let setting = &self.solver.setting;
        Ok(Run {
            store: store_of(alloc, setting.variables, state)?,
            moves: moves_of(alloc, &setting.steps, steps)?,
        })
    }

    /// Whether formulas are true in a first state.
    fn first_denied(&mut self, alloc: Global, denied: &SharedForm) -> Result<Answer, CubeFault> {
        let mut forms = Vec::with_capacity(alloc, 2)?;
        forms.push(self.solver.setting.initial.share()?)?;
        forms.push(denied.share()?)?;
        self.solve(alloc, forms, Allowed::From(ALWAYS))
    }

    /// Whether the goal is false in a state to which runs are known to come.
    fn within_reach(&self, alloc: Global, goal: &Form) -> Result<Option<Outcome>, CubeFault> {
        let steps = self.reach.way_out_of(alloc, &self.solver.setting, goal)?;
        match (steps, self.reach.first()) {
            (Some(steps), Some(first)) => {
                let run = self.run_of(alloc, first, &steps)?;
                Ok(Some(Outcome::Refuted(run)))
            }
            _ => Ok(None),
        }
    }

    /// Whether the goal is false in a first state.
    fn before_all(
        &mut self,
        alloc: Global,
        denied: &SharedForm,
    ) -> Result<Option<Outcome>, CubeFault> {
        match self.first_denied(alloc, denied)? {
            Answer::Never(_) => Ok(None),
            Answer::State(state) => {
                let run = self.run_of(alloc, &state, &[])?;
                Ok(Some(Outcome::Refuted(run)))
            }
            Answer::Unknown(why) => Ok(Some(unknown(why))),
        }
    }

    /// The states in which the goal is false for the reason for which it is so in this one.
    fn bad_cube(&self, alloc: Global, goal: &Form, state: &State) -> Result<Cube, CubeFault> {
        let layout = &self.solver.setting.layout;
        let mut cube = Cube::everything(alloc, layout)?;
        cube.keep_implicant(alloc, layout, goal, false, state)?;
        Ok(cube)
    }

    /// Blocks one state in which the goal is false, if there is one at this level.
    fn block_one(
        &mut self,
        alloc: Global,
        goal: &Form,
        denied: &SharedForm,
        top: u32,
    ) -> Result<Option<Level>, CubeFault> {
        match self.denied_at(alloc, denied, top)? {
            Answer::Never(_) => Ok(Some(Level::Closed)),
            Answer::Unknown(why) => Ok(Some(Level::Over(unknown(why)))),
            Answer::State(state) => self.block_state(alloc, goal, &state, top),
        }
    }

    /// Whether the goal is false in a state of this level.
    fn denied_at(
        &mut self,
        alloc: Global,
        denied: &SharedForm,
        top: u32,
    ) -> Result<Answer, CubeFault> {
        let mut forms = Vec::with_capacity(alloc, 1)?;
        forms.push(denied.share()?)?;
        self.solve(alloc, forms, Allowed::From(top))
    }

    /// Blocks a state in which the goal is false.
    fn block_state(
        &mut self,
        alloc: Global,
        goal: &Form,
        state: &State,
        top: u32,
    ) -> Result<Option<Level>, CubeFault> {
        let bad = self.bad_cube(alloc, goal, state)?;
        let blocking = self.block(alloc, bad, top)?;
        self.level_of(alloc, blocking)
    }

    /// What a level comes to by what became of a cube; `None` where it goes on.
    fn level_of(&self, alloc: Global, blocking: Blocking) -> Result<Option<Level>, CubeFault> {
        match blocking {
            Blocking::Done => Ok(None),
            Blocking::Run(state, steps) => {
                let run = self.run_of(alloc, &state, &steps)?;
                Ok(Some(Level::Over(Outcome::Refuted(run))))
            }
            Blocking::Stopped(why, cube, level) => Ok(Some(Level::Over(Outcome::Unknown {
                why,
                left: Some((cube, level)),
            }))),
        }
    }

    /// Blocks all states at this level in which the goal is false.
    fn block_all<O: Observer>(
        &mut self,
        alloc: Global,
        goal: &Form,
        denied: &SharedForm,
        top: u32,
        observer: &O,
    ) -> Result<Level, CubeFault> {
        for _ in 0..MOST_ROUNDS {
            observer.at(self.counts());
            if let Some(level) = self.block_one(alloc, goal, denied, top)? {
                return Ok(level);
            }
        }
        Ok(Level::Over(unknown(Why::Budget)))
    }

    /// Moves lemmas of a level one up, where no step enters their cubes there.
    fn push_level(&mut self, alloc: Global, level: u32) -> Result<(), CubeFault> {
        for number in 0..self.lemmas.len() {
            if self.is_pushed(alloc, number, level)?
                && let Some(lemma) = self.lemmas.get_mut(number)
            {
                lemma.level = level.saturating_add(1);
            }
        }
        Ok(())
    }

    /// Whether the lemma has this level, and no step enters its cube one above.
    fn is_pushed(&mut self, alloc: Global, number: usize, level: u32) -> Result<bool, CubeFault> {
        let lemmas = self.lemmas.as_slice();
        let Some(lemma) = lemmas.get(number) else {
            return Ok(false);
        };
        if !lemma.stands || lemma.level != level {
            return Ok(false);
        }
        let Some(cube) = &lemma.cube else {
            return Ok(false);
        };
        let entry = self
            .solver
            .enter(alloc, lemmas, cube, level.saturating_add(1))?;
        Ok(matches!(entry, Entry::Blocked(_)))
    }

    /// Whether a lemma of this level stands.
    fn has_level(&self, level: u32) -> bool {
        for lemma in &self.lemmas {
            if lemma.stands && lemma.level == level {
                return true;
            }
        }
        false
    }

    /// Lets all lemmas above a level hold always.
    fn settle(&mut self, level: u32) {
        for lemma in &mut self.lemmas {
            if lemma.stands && lemma.level > level {
                lemma.level = ALWAYS;
            }
        }
    }

    /// Moves lemmas up, level by level. Where none stays on a level, those above it are inductive.
    fn push_all(&mut self, alloc: Global, top: u32) -> Result<bool, CubeFault> {
        for level in 1..=top {
            self.push_level(alloc, level)?;
            if !self.has_level(level) {
                self.settle(level);
                return Ok(true);
            }
        }
        Ok(false)
    }

    /// What the search comes to at a level; `None` where it goes on to the next.
    fn at_level<O: Observer>(
        &mut self,
        alloc: Global,
        goal: &Form,
        denied: &SharedForm,
        top: u32,
        observer: &O,
    ) -> Result<Option<Outcome>, CubeFault> {
        self.level = self.level.max(top);
        match self.block_all(alloc, goal, denied, top, observer)? {
            Level::Over(outcome) => Ok(Some(outcome)),
            Level::Closed => {
                if self.push_all(alloc, top)? {
                    Ok(Some(Outcome::Inductive))
                } else {
                    Ok(None)
                }
            }
        }
    }

    /// The levels in turn, behind the first states of runs.
    fn through_levels<O: Observer>(
        &mut self,
        alloc: Global,
        goal: &Form,
        denied: &SharedForm,
        observer: &O,
    ) -> Result<Outcome, CubeFault> {
        if let Some(outcome) = self.within_reach(alloc, goal)? {
            return Ok(outcome);
        }
        if let Some(outcome) = self.before_all(alloc, denied)? {
            return Ok(outcome);
        }
        for top in 1..MOST_LEVELS {
            if let Some(outcome) = self.at_level(alloc, goal, denied, top, observer)? {
                return Ok(outcome);
            }
        }
        Ok(unknown(Why::Levels))
    }

    /// The levels in turn.
    pub(crate) fn all_levels<O: Observer>(
        &mut self,
        alloc: Global,
        goal: &Form,
        observer: &O,
    ) -> Result<Outcome, CubeFault> {
        let denied = passing(alloc, negation(alloc, goal.copy(alloc)?)?)?;
        self.through_levels(alloc, goal, &denied, observer)
    }
}
