//! A monitor of a waiting-for that runs beside a program.
//!
//! It is free, or watches at a level. In any state where the claim begins it may begin to watch; from then on it goes with each step of the
//! program to the highest level that it may (Manna and Pnueli, Temporal Verification of Reactive Systems: Safety, 1995, section 3.3, say
//! what the levels are). A lower level allows less, so no other choice would serve longer: the claim fails exactly where the monitor comes
//! to level 1 and the formula of level 1 doesn't hold. That it never does is an invariance of both together, as for every safety property
//! (Alpern and Schneider, Recognizing safety and liveness, 1987). Since it may begin anywhere, what an invariant says of its being free is
//! one of the program, and covers each state where the claim begins by what it says of the levels.

use crate::arrivals::Formulas;
use crate::claim::WaitingFor;
use control_cubes::{CubeFault, Layout, Place, negation};
use control_states::{Alternative, Component, Components};
use invariant_search::{FIRST_HINT, Machine, Step};
use st_form::{Change, Form, SharedForm, TransName};
use st_memory::Memory;
use std::alloc::Global;

/// A program and its monitor have at most so many modes together.
const MOST_STEPS: usize = 60_000;

/// The components of a program and the monitor, which is the last one, and what holds of both at the beginning. Where the monitor is free
/// it is at its first location, and else at that with its level's number.
#[derive(Drop)]
pub struct Monitor {
    components: Components,
    component: u32,
    first_location: u32,
    initial: Form,
    /// What beginning to watch changes of the program: nothing.
    nothing: Change,
}

/// A number as one of 32 bits, or the largest of these.
fn narrowed(number: usize) -> u32 {
    u32::try_from(number).unwrap_or(u32::MAX)
}

/// The components of a program, and one at its own locations from one on, so many of them.
fn parts_beside(
    alloc: Global,
    components: &Components,
    from: u32,
    locations: usize,
) -> Result<Vec<Component>, Memory> {
    let mut parts = Vec::new(alloc);
    for part in components.parts() {
        let alternatives = Vec::from_slice(alloc, part.alternatives())?;
        parts.push(Component::new(alternatives, part.around()))?;
    }
    let mut alternatives = Vec::new(alloc);
    for number in 0..locations {
        alternatives.push(Alternative::Location(from.saturating_add(narrowed(number))))?;
    }
    parts.push(Component::new(alternatives, None))?;
    Ok(parts)
}

/// The components of a program and one more, with so many locations.
fn components_beside(
    alloc: Global,
    components: &Components,
    locations: usize,
) -> Result<Components, CubeFault> {
    let from = narrowed(components.owners().len());
    let parts = parts_beside(alloc, components, from, locations)?;
    let mut owners = Vec::from_slice(alloc, components.owners())?;
    for _ in 0..locations {
        owners.push(components.count())?;
    }
    if parts.len() >= 1 << 32 {
        return Err(CubeFault::TooLarge);
    }
    Ok(Components::new(parts, owners))
}

/// No change.
fn no_change(alloc: Global) -> Change {
    Change {
        numbers: Vec::new(alloc),
        truths: Vec::new(alloc),
        leaves: Vec::new(alloc),
        enters: Vec::new(alloc),
    }
}

/// Where the monitor is before a step and behind it, and what is so before the step beside that the program can take it.
#[derive(Drop)]
struct Passage {
    from: usize,
    to: usize,
    arrival: Vec<Form>,
}

/// The places, and another.
fn with_place(alloc: Global, places: &[Place], place: Place) -> Result<Vec<Place>, Memory> {
    let mut out = Vec::from_slice(alloc, places)?;
    out.push(place)?;
    Ok(out)
}

impl Monitor {
    /// The monitor of a claim beside a program.
    pub fn beside(
        alloc: Global,
        program: &Machine<'_>,
        claim: WaitingFor<'_>,
    ) -> Result<Monitor, CubeFault> {
        let components = components_beside(alloc, program.components, claim.forms.len())?;
        let first_location = narrowed(program.components.owners().len());
        let mut initial = Vec::with_capacity(alloc, 2)?;
        initial.push(Form::At(first_location))?;
        initial.push(program.initial.copy(alloc)?)?;
        Ok(Monitor {
            components,
            component: program.components.count(),
            first_location,
            initial: Form::And(initial),
            nothing: no_change(alloc),
        })
    }

    /// The monitor's component.
    pub(crate) fn component(&self) -> u32 {
        self.component
    }

    /// The place of the monitor at a level, or of its being free, which is 0.
    fn place(&self, level: usize) -> Place {
        Place {
            component: self.component,
            number: u8::try_from(level).unwrap_or(u8::MAX),
        }
    }

    /// That the monitor is at a level, or free.
    fn is_at(&self, level: usize) -> Form {
        Form::At(self.first_location.saturating_add(narrowed(level)))
    }

    /// What is to hold always: that the formula of level 1 holds where the monitor is there.
    pub(crate) fn goal(&self, alloc: Global, claim: WaitingFor<'_>) -> Result<Form, Memory> {
        let mut ways = Vec::with_capacity(alloc, 2)?;
        ways.push(negation(alloc, self.is_at(1))?)?;
        if let Some(form) = claim.form(1) {
            ways.push(form.copy(alloc)?)?;
        }
        Ok(Form::Or(ways))
    }

    /// That the monitor is where a passage begins, a formula, and what is so before the passage.
    fn enabled(
        &self,
        alloc: Global,
        form: &Form,
        from: usize,
        arrival: Vec<Form>,
        hint: u32,
    ) -> Result<SharedForm, Memory> {
        let mut parts = arrival;
        parts.push(self.is_at(from))?;
        parts.push(form.copy(alloc)?)?;
        SharedForm::new(alloc, Form::And(parts), hint)
    }

    /// Appends a step of the program that the monitor goes with.
    fn push_step<'m>(
        &self,
        alloc: Global,
        step: &Step<'m>,
        passage: Passage,
        out: &mut Vec<Step<'m>>,
    ) -> Result<(), Memory> {
        let hint = FIRST_HINT.saturating_add(narrowed(out.len()));
        let (from, to) = (passage.from, passage.to);
        let enabled = self.enabled(alloc, step.enabled.get(), from, passage.arrival, hint)?;
        out.push(Step {
            name: step.name,
            transition: step.transition,
            mode: step.mode,
            before: with_place(alloc, &step.before, self.place(from))?,
            behind: with_place(alloc, &step.behind, self.place(to))?,
            enabled,
            change: step.change,
        })?;
        Ok(())
    }

    /// Appends a step of the program from where the monitor watches at a level.
    fn push_watched<'m>(
        &self,
        alloc: Global,
        step: &Step<'m>,
        formulas: &Formulas,
        from: usize,
        out: &mut Vec<Step<'m>>,
    ) -> Result<(), Memory> {
        for to in 1..from.saturating_add(1) {
            let mut arrival = Vec::new(alloc);
            formulas.push_arrival(alloc, from, to, &mut arrival)?;
            self.push_step(alloc, step, Passage { from, to, arrival }, out)?;
        }
        Ok(())
    }

    /// Appends all that may come of a step of the program.
    fn push_steps<'m>(
        &self,
        alloc: Global,
        claim: WaitingFor<'_>,
        step: &Step<'m>,
        out: &mut Vec<Step<'m>>,
    ) -> Result<(), CubeFault> {
        let free = Passage {
            from: 0,
            to: 0,
            arrival: Vec::new(alloc),
        };
        self.push_step(alloc, step, free, out)?;
        let formulas = Formulas::behind(alloc, claim, step.change)?;
        for from in 1..claim.highest().saturating_add(1) {
            self.push_watched(alloc, step, &formulas, from, out)?;
        }
        Ok(())
    }

    /// Appends that the monitor begins to watch, at any level.
    fn push_begin<'m>(
        &'m self,
        alloc: Global,
        claim: WaitingFor<'_>,
        out: &mut Vec<Step<'m>>,
    ) -> Result<(), CubeFault> {
        let formulas = Formulas::here(alloc, claim)?;
        let highest = claim.highest();
        for to in 1..highest.saturating_add(1) {
            let mut arrival = Vec::new(alloc);
            formulas.push_arrival(alloc, highest, to, &mut arrival)?;
            let hint = FIRST_HINT.saturating_add(narrowed(out.len()));
            out.push(Step {
                name: TransName::Idle,
                transition: u32::MAX,
                mode: 1,
                before: vec![in alloc; self.place(0)]?,
                behind: vec![in alloc; self.place(to)]?,
                enabled: self.enabled(alloc, claim.start, 0, arrival, hint)?,
                change: &self.nothing,
            })?;
        }
        Ok(())
    }

    /// The steps of both together.
    fn steps<'m>(
        &'m self,
        alloc: Global,
        program: &Machine<'m>,
        claim: WaitingFor<'_>,
    ) -> Result<Vec<Step<'m>>, CubeFault> {
        let mut out = Vec::new(alloc);
        self.push_begin(alloc, claim, &mut out)?;
        for step in &program.steps {
            if out.len() > MOST_STEPS {
                return Err(CubeFault::TooLarge);
            }
            self.push_steps(alloc, claim, step, &mut out)?;
        }
        Ok(out)
    }

    /// The program and the monitor together. `TooLarge` where there are more levels than a component may have places, or too many modes.
    pub fn machine<'m>(
        &'m self,
        alloc: Global,
        program: &Machine<'m>,
        claim: WaitingFor<'_>,
    ) -> Result<Machine<'m>, CubeFault> {
        let layout = Layout::new(alloc, &self.components)?;
        Ok(Machine {
            variables: program.variables,
            components: &self.components,
            layout,
            first: with_place(alloc, &program.first, self.place(0))?,
            initial: &self.initial,
            steps: self.steps(alloc, program, claim)?,
        })
    }
}
