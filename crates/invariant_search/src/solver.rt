//! Questions about states in which lemmas hold, and about steps into cubes.

use crate::answer::{Answer, Entry, Why};
use crate::beginning::Beginning;
use crate::closed::{Closed, Way, way_into};
use crate::entering::{entry_question, start_question, starts_within};
use crate::known::Known;
use crate::lemma::{ALWAYS, Allowed, Lemma};
use crate::moving::behind_step;
use crate::posed::{Posed, after_asking};
use crate::prover::{Asked, Prover, narrowed};
use crate::setting::Setting;
use control_cubes::{Cube, CubeFault, State};
use st_form::{Condition, SharedForm};
use st_memory::Memory;
use std::alloc::Global;

/// A program, who answers questions about it, and states and steps that were found.
#[derive(Drop)]
pub(crate) struct Solver<'a> {
    pub(crate) setting: Setting<'a>,
    prover: Prover<'a>,
    known: Known,
    closed: Closed,
    beginning: Beginning,
}

impl<'a> Solver<'a> {
    pub(crate) fn new(
        alloc: Global,
        setting: Setting<'a>,
        budget: u64,
    ) -> Result<Solver<'a>, CubeFault> {
        let prover = Prover::new(alloc, setting.components, setting.variables, budget)?;
        let closed = Closed::new(alloc, setting.steps.len())?;
        let beginning = Beginning::new(alloc, &setting.first, setting.initial.get())?;
        Ok(Solver {
            setting,
            prover,
            known: Known::new(alloc),
            closed,
            beginning,
        })
    }

    pub(crate) fn queries(&self) -> u64 {
        self.prover.queries()
    }

    pub(crate) fn is_spent(&self) -> bool {
        self.prover.is_spent()
    }

    pub(crate) fn give_back(&mut self) -> u64 {
        self.prover.give_back()
    }

    /// Whether the formulas of a question are true together. A state that was found for another question may say so.
    fn ask(&mut self, alloc: Global, question: &Condition) -> Result<Asked, CubeFault> {
        let layout = &self.setting.layout;
        if let Some(state) = self.known.state(layout, &question.given) {
            return Ok(Asked::State(state.copy(alloc)?));
        }
        let asked = self.prover.ask(alloc, layout, question)?;
        self.keep_shown(alloc, &asked)?;
        Ok(asked)
    }

    /// Keeps a state that was shown.
    fn keep_shown(&mut self, alloc: Global, asked: &Asked) -> Result<(), Memory> {
        match asked {
            Asked::State(state) => self.known.keep_state(state.copy(alloc)?),
            Asked::Never | Asked::Unknown(_) => Ok(()),
        }
    }

    /// Asks once, and gives the lemma that is broken if the state isn't one that is asked for.
    fn ask_once(
        &mut self,
        alloc: Global,
        lemmas: &[Lemma],
        posed: &mut Posed,
        allowed: Allowed<'_>,
    ) -> Result<Option<Answer>, CubeFault> {
        let asked = self.ask(alloc, &posed.condition)?;
        Ok(after_asking(&self.setting, lemmas, allowed, posed, asked)?)
    }

    /// Asks as long as lemmas are to be given.
    fn ask_all(
        &mut self,
        alloc: Global,
        lemmas: &[Lemma],
        posed: &mut Posed,
        allowed: Allowed<'_>,
    ) -> Result<Answer, CubeFault> {
        for _ in 0..lemmas.len().saturating_add(2) {
            if let Some(answer) = self.ask_once(alloc, lemmas, posed, allowed)? {
                return Ok(answer);
            }
        }
        Ok(Answer::Unknown(Why::Wide))
    }

    /// Whether the formulas are true together in a state where the lemmas hold that are allowed. Each round but the last gives a lemma
    /// more.
    pub(crate) fn solve(
        &mut self,
        alloc: Global,
        lemmas: &[Lemma],
        forms: Vec<SharedForm>,
        allowed: Allowed<'_>,
    ) -> Result<Answer, CubeFault> {
        let mut posed = Posed::new(alloc, forms)?;
        self.ask_all(alloc, lemmas, &mut posed, allowed)
    }

    /// Whether a first state of runs is in the cube.
    pub(crate) fn begins_in(&mut self, alloc: Global, cube: &Cube) -> Result<Answer, CubeFault> {
        if let Some(state) = self.known.start_in(cube) {
            return Ok(Answer::State(state.copy(alloc)?));
        }
        if !starts_within(&self.setting, cube) {
            return Ok(Answer::Never(Vec::new(alloc)));
        }
        let forms = start_question(alloc, &self.setting, cube)?;
        if self.beginning.refutes(&self.setting.layout, &forms) {
            return Ok(Answer::Never(Vec::new(alloc)));
        }
        let answer = self.solve(alloc, &[], forms, Allowed::From(ALWAYS))?;
        self.keep_first(alloc, &answer)?;
        Ok(answer)
    }

    /// Keeps a first state that was found.
    fn keep_first(&mut self, alloc: Global, answer: &Answer) -> Result<(), Memory> {
        match answer {
            Answer::State(state) => self.known.keep_start(state.copy(alloc)?),
            Answer::Never(_) | Answer::Unknown(_) => Ok(()),
        }
    }

    /// Whether the step with a number leads into the cube from outside it, and begins in a first state of runs.
    fn begins_run(&self, cube: &Cube, number: usize) -> bool {
        match self.known.passage(number) {
            Some(passage) => {
                passage.enters(cube)
                    && passage
                        .from
                        .satisfies(&self.setting.layout, self.setting.initial.get())
            }
            None => false,
        }
    }

    /// Whether the step with a number leads into the cube from outside it, and begins where all lemmas of the level hold.
    fn begins_within(
        &mut self,
        lemmas: &[Lemma],
        level: u32,
        cube: &Cube,
        number: usize,
    ) -> Result<bool, Memory> {
        match self.known.passage_mut(number) {
            Some(passage) => {
                if !passage.enters(cube) {
                    return Ok(false);
                }
                passage.begins_within(&self.setting, lemmas, Allowed::From(level))
            }
            None => Ok(false),
        }
    }

    /// The number of a step that was found before, which leads into the cube from a state outside it that is reached by at most so many
    /// steps, as far as lemmas say.
    fn remembered(
        &mut self,
        lemmas: &[Lemma],
        level: u32,
        cube: &Cube,
    ) -> Result<Option<usize>, Memory> {
        for number in (0..self.known.passages()).rev() {
            let enters = if level == 0 {
                self.begins_run(cube, number)
            } else {
                self.begins_within(lemmas, level, cube, number)?
            };
            if enters {
                return Ok(Some(number));
            }
        }
        Ok(None)
    }

    /// The same step, with the state in which it begins.
    fn remembered_entry(
        &mut self,
        alloc: Global,
        lemmas: &[Lemma],
        level: u32,
        cube: &Cube,
    ) -> Result<Option<Entry>, Memory> {
        let Some(number) = self.remembered(lemmas, level, cube)? else {
            return Ok(None);
        };
        match self.known.passage(number) {
            Some(passage) => Ok(Some(Entry::Before(passage.from.copy(alloc)?, passage.step))),
            None => Ok(None),
        }
    }

    /// Remembers a step.
    fn remember(&mut self, alloc: Global, state: &State, step: u32) -> Result<(), Memory> {
        if let Some(to) = behind_step(alloc, &self.setting, state, step)? {
            self.known
                .keep_passage(alloc, state.copy(alloc)?, to, step)?;
        }
        Ok(())
    }

    /// Whether a step leads into the cube from a state outside it where the lemmas hold that are allowed; and for level 1 a first
    /// state of runs.
    fn enter_by(
        &mut self,
        alloc: Global,
        lemmas: &[Lemma],
        cube: &Cube,
        allowed: Allowed<'_>,
        first: bool,
        number: usize,
    ) -> Result<Answer, CubeFault> {
        let Some(way) = way_into(alloc, &self.setting, cube, first, number)? else {
            return Ok(Answer::Never(Vec::new(alloc)));
        };
        if let Some(used) = self.closed.used_for(&way, cube, lemmas, allowed) {
            return Ok(Answer::Never(Vec::from_slice(alloc, used)?));
        }
        let Some(forms) = self.entry_forms(alloc, cube, first, number)? else {
            return Ok(Answer::Never(Vec::new(alloc)));
        };
        let answer = self.solve(alloc, lemmas, forms, allowed)?;
        self.keep_closed(alloc, way, &answer)?;
        Ok(answer)
    }

    /// What is asked of a mode; `None` where it isn't so by places, or by the values at the beginning.
    fn entry_forms(
        &self,
        alloc: Global,
        cube: &Cube,
        first: bool,
        number: usize,
    ) -> Result<Option<Vec<SharedForm>>, CubeFault> {
        let Some(forms) = entry_question(alloc, &self.setting, cube, first, number)? else {
            return Ok(None);
        };
        if first && self.beginning.refutes(&self.setting.layout, &forms) {
            return Ok(None);
        }
        Ok(Some(forms))
    }

    /// Keeps a way that isn't there.
    fn keep_closed(&mut self, alloc: Global, way: Way, answer: &Answer) -> Result<(), Memory> {
        match answer {
            Answer::Never(used) => self.closed.keep(way, Vec::from_slice(alloc, used)?),
            Answer::State(_) | Answer::Unknown(_) => Ok(()),
        }
    }

    /// Whether any step does.
    pub(crate) fn enter_by_any(
        &mut self,
        alloc: Global,
        lemmas: &[Lemma],
        cube: &Cube,
        allowed: Allowed<'_>,
        first: bool,
    ) -> Result<Entry, CubeFault> {
        let mut used = Vec::new(alloc);
        for number in 0..self.setting.steps.len() {
            match self.enter_by(alloc, lemmas, cube, allowed, first, number)? {
                Answer::Never(more) => used.extend_from_slice(&more)?,
                Answer::State(state) => return Ok(Entry::Before(state, narrowed(number))),
                Answer::Unknown(why) => return Ok(Entry::Unknown(why)),
            }
        }
        used.sort_unstable();
        used.dedup();
        Ok(Entry::Blocked(used))
    }

    /// Whether a step leads into the cube from a state outside it that is reached by fewer steps than the level, as far as lemmas
    /// say.
    pub(crate) fn enter(
        &mut self,
        alloc: Global,
        lemmas: &[Lemma],
        cube: &Cube,
        level: u32,
    ) -> Result<Entry, CubeFault> {
        let below = if level == ALWAYS {
            ALWAYS
        } else {
            level.saturating_sub(1)
        };
        if let Some(entry) = self.remembered_entry(alloc, lemmas, below, cube)? {
            return Ok(entry);
        }
        let allowed = Allowed::From(below.max(1));
        let entry = self.enter_by_any(alloc, lemmas, cube, allowed, below == 0)?;
        if let Entry::Before(state, step) = &entry {
            self.remember(alloc, state, *step)?;
        }
        Ok(entry)
    }
}
