//! Verification conditions, and their names.

ghost use Rattle.std.specs.Prelude.{◌≡◌, IfOk, map};
ghost use Rattle.st_form.specs.Formula.{every, more, none};
ghost use Rattle.st_form.specs.Plain.{plain};
ghost use Rattle.st_form.specs.Shared.{given_of, shown_of, case_of, together};

use crate::formulas::Form;
use crate::shared::{SharedForm, unshared};
use st_memory::Memory;
use std::alloc::Global;

/// Which part of a statement a transition takes.
#[derive(Clone, Copy, Debug, PartialEq, Eq)]
pub enum Part {
    Whole,
    Entry,
    Exit,
}

/// The name of a transition: the idling transition, or a part of the statement with this occurrence.
#[derive(Clone, Copy, Debug, PartialEq, Eq)]
pub enum TransName {
    Idle,
    Step { occ: u32, part: Part },
}

/// What a condition is for in its rule.
#[derive(Clone, Copy, Debug, PartialEq, Eq)]
pub enum Premise {
    Implies,
    Start,
    Keep,
    Cover,
    Level,
    Target,
    Rank,
    Help,
    Move,
}

/// The name of a condition: the step of the proof script, the premise, the node of the net or diagram or the level's number,
/// the transition, and the transition's mode. Modes count from 1; a name without a mode has 0.
#[derive(Clone, Copy, Debug, PartialEq, Eq)]
pub struct CondName {
    pub step: u32,
    pub premise: Premise,
    pub node: Option<u32>,
    pub trans: Option<TransName>,
    pub mode: u32,
}

/// What a condition shows: a formula, or that one of the cases holds. A case is the conjunction of its formulas, of which there is at
/// least one.
#[derive(Drop)]
pub enum Consequent {
    One(SharedForm),
    Any(Vec<Vec<SharedForm>>),
}

/// A condition: where all that is given holds, what is shown is to hold.
#[derive(Drop)]
pub struct Condition {
    pub given: Vec<SharedForm>,
    pub shown: Consequent,
    pub name: CondName,
}

impl Condition {
    /// A condition with one formula given and one shown.
    pub fn new(alloc: Global, given: Form, shown: Form, name: CondName) -> Result<Condition, Memory>
        ensures given { IfOk result (λ c. given_of c ≡ every (more (plain given) none)) }
        ensures shown { IfOk result (λ c. shown_of c ≡ plain shown) }
    {
        let given = SharedForm::new(alloc, given, 0)?;
        let shown = SharedForm::new(alloc, shown, 1)?;
        Ok(Condition {
            given: vec![in alloc; given]?,
            shown: Consequent::One(shown),
            name,
        })
    }

    /// What is given, as one formula.
    pub fn given(&self, alloc: Global) -> Result<Form, Memory>
        ensures { IfOk result (λ f. plain f ≡ given_of self.now) }
    {
        Ok(Form::And(unshared(alloc, self.given.as_slice())?))
    }

    /// What is shown, as one formula.
    pub fn shown(&self, alloc: Global) -> Result<Form, Memory>
        ensures { IfOk result (λ f. plain f ≡ shown_of self.now) }
    {
        match &self.shown {
            Consequent::One(form) => form.get().copy(alloc),
            Consequent::Any(cases) => Ok(Form::Or(all_cases(alloc, cases.as_slice())?)),
        }
    }
}

/// Each case as one formula.
fn all_cases(alloc: Global, cases: &[Vec<SharedForm>]) -> Result<Vec<Form>, Memory>
    ensures { IfOk result (λ v. map plain v.items ≡ map case_of cases.now) }
{
    let mut out = Vec::with_capacity(alloc, cases.len())?;
    for case in cases {
        let parts = unshared(alloc, case.as_slice())?;
        out.push(conjunction(parts))?;
    }
    Ok(out)
}

/// The conjunction of formulas; a single formula is itself.
pub fn conjunction(mut parts: Vec<Form>) -> Form
    ensures { plain result ≡ together (map plain parts.items) }
{
    if parts.len() == 1
        && let Some(part) = parts.pop()
    {
        return part;
    }
    Form::And(parts)
}
