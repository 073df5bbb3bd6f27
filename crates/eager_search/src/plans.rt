//! Plans of certificates, by number. A plan names the lines and the disjunctions that a certificate counts.

use st_linear::Lin;
use st_memory::Memory;
use std::alloc::Global;

/// How a problem is divided: by a component, a boolean variable, the disjunction with a name, or the cut with a number.
#[derive(Clone, Copy)]
pub(crate) enum Step {
    Case(u32),
    Truth(u32),
    Split(u64),
    Cut(usize),
}

/// A certificate that names what it counts.
#[derive(Drop)]
pub(crate) enum Plan {
    Absurd,
    /// Lines by name, each with a multiplier, whose sum is a negative constant.
    Linear(Vec<(u64, i64)>),
    /// One plan for each part of a division.
    Branch(Step, Vec<usize>),
}

/// Plans, and the forms of cuts.
#[derive(Drop)]
pub(crate) struct Plans {
    plans: Vec<Plan>,
    cuts: Vec<Lin>,
}

impl Plans {
    pub(crate) fn new(alloc: Global) -> Plans {
        Plans {
            plans: Vec::new(alloc),
            cuts: Vec::new(alloc),
        }
    }

    fn push(&mut self, plan: Plan) -> Result<usize, Memory> {
        let number = self.plans.len();
        self.plans.push(plan)?;
        Ok(number)
    }

    pub(crate) fn absurd(&mut self) -> Result<usize, Memory> {
        self.push(Plan::Absurd)
    }

    pub(crate) fn linear(&mut self, picks: Vec<(u64, i64)>) -> Result<usize, Memory> {
        self.push(Plan::Linear(picks))
    }

    pub(crate) fn branch(&mut self, step: Step, parts: Vec<usize>) -> Result<usize, Memory> {
        self.push(Plan::Branch(step, parts))
    }

    /// Keeps the form of a cut, and gives its number.
    pub(crate) fn cut(&mut self, form: Lin) -> Result<usize, Memory> {
        let number = self.cuts.len();
        self.cuts.push(form)?;
        Ok(number)
    }

    pub(crate) fn plan(&self, number: usize) -> Option<&Plan> {
        self.plans.get(number)
    }

    pub(crate) fn cut_form(&self, number: usize) -> Option<&Lin> {
        self.cuts.get(number)
    }
}
