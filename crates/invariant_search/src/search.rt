//! The search over one machine, mostly a program.

use crate::answer::{Answer, Counts, Entry, Outcome};
use crate::lemma::{ALWAYS, Allowed, Lemma};
use crate::machine::Machine;
use crate::moving::behind_step;
use crate::observing::Observer;
use crate::pool::Pool;
use crate::prover::{FIRST_HINT, narrowed};
use crate::reached::Reach;
use crate::setting::Setting;
use crate::solver::Solver;
use crate::step::Step;
use control_cubes::{Cube, CubeFault, Layout, PlaceSet, State};
use control_states::Components;
use st_form::{Form, SharedForm};
use st_linear::Lin;
use st_program::Program;
use std::alloc::Global;
use transition_system::Fts;

/// The lemmas that are known of a program's runs, and what is needed to find more.
#[derive(Drop)]
pub struct Search<'a> {
    pub(crate) solver: Solver<'a>,
    pub(crate) lemmas: Vec<Lemma>,
    pub(crate) pool: Pool,
    pub(crate) level: u32,
    pub(crate) obligations: u64,
    pub(crate) reach: Reach,
}

/// The rows of a machine: those of its beginning and of its modes.
fn pool_of(alloc: Global, machine: &Machine<'_>) -> Result<Pool, CubeFault> {
    let mut pool = Pool::new(alloc);
    pool.push_form(alloc, machine.initial)?;
    for step in &machine.steps {
        pool.push_step(alloc, step)?;
    }
    pool.push_comparisons(alloc)?;
    Ok(pool)
}

impl<'a> Search<'a> {
    /// A search with no lemmas, which may search so many conditions. `TooLarge` where a component has more than 128 places, or a
    /// number of the program is too large.
    pub fn new(
        alloc: Global,
        program: &'a Program,
        system: &'a Fts,
        components: &'a Components,
        budget: u64,
    ) -> Result<Search<'a>, CubeFault> {
        let machine = Machine::of_program(alloc, program, system, components)?;
        Search::over(alloc, machine, budget)
    }

    /// The same over a machine.
    pub fn over(alloc: Global, machine: Machine<'a>, budget: u64) -> Result<Search<'a>, CubeFault> {
        let pool = pool_of(alloc, &machine)?;
        let setting = Setting::new(alloc, machine)?;
        Ok(Search {
            solver: Solver::new(alloc, setting, budget)?,
            lemmas: Vec::new(alloc),
            pool,
            level: 0,
            obligations: 0,
            reach: Reach::new(alloc),
        })
    }

    /// The program's components.
    pub fn components(&self) -> &'a Components {
        self.solver.setting.components
    }

    /// The program's places.
    pub fn layout(&self) -> &Layout {
        &self.solver.setting.layout
    }

    /// The modes of all transitions but idling whose guard isn't false.
    pub fn steps(&self) -> &[Step<'a>] {
        self.solver.setting.steps.as_slice()
    }

    /// Of each component the places that no chain of steps leads to.
    pub fn dead(&self) -> &[PlaceSet] {
        self.solver.setting.dead.as_slice()
    }

    /// The rows of tests, of the beginning, of goals and of assignments, one of each row and its opposite.
    pub fn pool(&self) -> &[Lin] {
        self.pool.rows.as_slice()
    }

    /// All lemmas by number.
    pub fn lemmas(&self) -> &[Lemma] {
        self.lemmas.as_slice()
    }

    /// States to which runs come; none before `explore`, and where no first state is shown.
    pub fn reach(&self) -> &Reach {
        &self.reach
    }

    /// Looks for states to which runs come, where that wasn't done. Then no larger cube that has one is tried, and one may end a search
    /// with a run.
    pub fn explore(&mut self, alloc: Global) -> Result<(), CubeFault> {
        if !self.reach.states().is_empty() {
            return Ok(());
        }
        let initial = vec![in alloc; self.solver.setting.initial.share()?]?;
        match self
            .solver
            .solve(alloc, &[], initial, Allowed::From(ALWAYS))?
        {
            Answer::State(first) => Ok(self.reach.begin(alloc, &self.solver.setting, first)?),
            Answer::Never(_) | Answer::Unknown(_) => Ok(()),
        }
    }

    /// How much was done.
    pub fn counts(&self) -> Counts {
        let mut standing: u32 = 0;
        for lemma in &self.lemmas {
            if lemma.stands {
                standing = standing.saturating_add(1);
            }
        }
        Counts {
            queries: self.solver.queries(),
            level: self.level,
            lemmas: standing,
            obligations: self.obligations,
        }
    }

    /// Whether no condition may be searched any longer.
    pub fn is_spent(&self) -> bool {
        self.solver.is_spent()
    }

    /// Gives back how many conditions might still be searched. From then on none is.
    pub fn give_back(&mut self) -> u64 {
        self.solver.give_back()
    }

    /// Takes the rows of these formulas into the pool.
    pub fn use_rows_of(&mut self, alloc: Global, goals: &[Form]) -> Result<(), CubeFault> {
        self.pool.push_forms(alloc, goals)?;
        self.pool.push_comparisons(alloc)
    }

    /// Keeps a lemma, and gives its number.
    fn keep(
        &mut self,
        alloc: Global,
        cube: Option<Cube>,
        form: Form,
        level: u32,
    ) -> Result<u32, CubeFault> {
        let number = narrowed(self.lemmas.len());
        let hint = FIRST_HINT
            .saturating_add(narrowed(self.steps().len()))
            .saturating_add(number);
        let form = SharedForm::new(alloc, form, hint)?;
        self.lemmas.push(Lemma {
            cube,
            form,
            level,
            stands: true,
        })?;
        Ok(number)
    }

    /// Takes a formula for a lemma that holds always, and gives its number.
    pub fn give(&mut self, alloc: Global, form: Form) -> Result<u32, CubeFault> {
        self.keep(alloc, None, form, ALWAYS)
    }

    /// Takes the complement of a cube for a lemma of this level, and gives its number. Lemmas of that level and below that it makes
    /// superfluous don't stand any longer.
    pub fn add(&mut self, alloc: Global, cube: Cube, level: u32) -> Result<u32, CubeFault> {
        for lemma in &mut self.lemmas {
            if lemma.level <= level
                && let Some(held) = &lemma.cube
                && cube.covers(held)
            {
                lemma.stands = false;
            }
        }
        let form = cube.clause(alloc, self.components(), self.layout())?;
        self.keep(alloc, Some(cube), form, level)
    }

    /// Lets a lemma not stand any longer.
    pub fn drop_lemma(&mut self, number: u32) {
        if let Some(lemma) = self.lemmas.get_mut(number as usize) {
            lemma.stands = false;
        }
    }

    /// Lets all lemmas not stand any longer that don't hold always.
    pub fn drop_bounded(&mut self) {
        for lemma in &mut self.lemmas {
            if lemma.level != ALWAYS {
                lemma.stands = false;
            }
        }
    }

    /// Whether the formulas are true together in a state where the lemmas hold that are allowed. Lemmas are used as far as they are
    /// asked for: the first that is false in the state that was found is given too.
    pub fn solve(
        &mut self,
        alloc: Global,
        forms: Vec<SharedForm>,
        allowed: Allowed<'_>,
    ) -> Result<Answer, CubeFault> {
        self.solver.solve(alloc, &self.lemmas, forms, allowed)
    }

    /// Whether a first state of runs is in the cube.
    pub fn begins_in(&mut self, alloc: Global, cube: &Cube) -> Result<Answer, CubeFault> {
        self.solver.begins_in(alloc, cube)
    }

    /// Whether a step leads into the cube from a state outside it that is reached by fewer steps than the level, as far as lemmas
    /// say.
    pub fn enter(&mut self, alloc: Global, cube: &Cube, level: u32) -> Result<Entry, CubeFault> {
        self.solver.enter(alloc, &self.lemmas, cube, level)
    }

    /// Whether a step leads into the cube from a state outside it where the lemmas hold that are allowed; where none does, the lemmas
    /// because of which it is so.
    pub fn cube_kept_by(
        &mut self,
        alloc: Global,
        cube: &Cube,
        allowed: Allowed<'_>,
    ) -> Result<Entry, CubeFault> {
        self.solver
            .enter_by_any(alloc, &self.lemmas, cube, allowed, false)
    }

    /// Whether a step leads from a state where the formula holds, and the lemmas that are allowed, to one where it doesn't hold; where
    /// none does, the lemmas because of which it is so.
    pub fn form_kept_by(
        &mut self,
        alloc: Global,
        form: &Form,
        allowed: Allowed<'_>,
    ) -> Result<Entry, CubeFault> {
        self.kept(alloc, form, allowed)
    }

    /// The state behind the mode with a number, where control may be where it starts; `None` where no mode has the number. A number
    /// that grows too large stays as it is.
    pub fn state_behind(
        &self,
        alloc: Global,
        state: &State,
        step: u32,
    ) -> Result<Option<State>, CubeFault> {
        Ok(behind_step(alloc, &self.solver.setting, state, step)?)
    }

    /// A larger cube that no step enters at this level, and in which no run begins; for one of which that is so.
    pub fn general(&mut self, alloc: Global, cube: &Cube, level: u32) -> Result<Cube, CubeFault> {
        self.generalized(alloc, cube, level)
    }

    /// Looks for lemmas from which the goal follows. `TooLarge` where a number grows too large on the way.
    pub fn ic3<O: Observer>(
        &mut self,
        alloc: Global,
        goal: &Form,
        observer: &O,
    ) -> Result<Outcome, CubeFault> {
        self.all_levels(alloc, goal, observer)
    }
}
