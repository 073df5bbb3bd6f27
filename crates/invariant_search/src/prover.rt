//! Questions to the search of conditions: whether formulas are true in a state together.
//!
//! A question is the condition that the formulas imply `False`. One book is kept for all questions of a program, so that lists of
//! conjuncts that come again aren't searched again. Where that search neither decides a question nor shows a state, the stronger one is
//! asked, which looks at the lines before each division.

ghost use Rattle.std.specs.Prelude.{◌≡◌, ◌≤◌, ◌+◌, true};
ghost use Rattle.farkas_check.specs.Limits.{IsNarrow};
ghost use Rattle.search_laws.specs.Searchable.{IsSearchable};
ghost use Rattle.st_form.specs.Shared.{consequent_of};

use crate::answer::Why;
use crate::narrow::{are_given_narrow, is_narrow};
use control_cubes::{CubeFault, Layout, State};
use control_states::Components;
use eager_search::find;
use linear_prover::{Book, Shown, Verdict, is_condition_below, unless_valid};
use st_form::{CondName, Condition, Consequent, Form, Premise, SharedForm, Variable};
use st_memory::Memory;
use st_program::Datum;
use std::alloc::Global;
use std::marker::Model;

/// The hint of formulas that stand in one question alone. Those that come again have hints of their own, from `FIRST_HINT` on.
const PASSING: u32 = 0;

/// At most so many problems are looked at by the stronger search of a question.
const MOST_PROBLEMS: u32 = 4_000;

/// The hint of the formula that holds at the beginning.
pub(crate) const INITIAL_HINT: u32 = 2;

/// The hint of the first mode; each other has the next one.
pub const FIRST_HINT: u32 = 8;

/// A number as one of 32 bits, or the largest of these.
pub(crate) fn narrowed(number: usize) -> u32 {
    u32::try_from(number).unwrap_or(u32::MAX)
}

/// What is said of a question.
#[derive(Drop)]
pub(crate) enum Asked {
    Never,
    State(State),
    Unknown(Why),
}

/// A formula that stands in one question alone.
pub(crate) fn passing(alloc: Global, form: Form) -> Result<SharedForm, Memory> {
    SharedForm::new(alloc, form, PASSING)
}

/// The condition that the formulas are never true together.
pub(crate) fn question(alloc: Global, forms: Vec<SharedForm>) -> Result<Condition, Memory> {
    Ok(Condition {
        given: forms,
        shown: Consequent::One(SharedForm::new(alloc, Form::False, 1)?),
        name: CondName {
            step: 0,
            premise: Premise::Keep,
            node: None,
            trans: None,
            mode: 0,
        },
    })
}

/// Whether what is shown is one formula, each number of which is below 2^69 in size.
fn is_consequent_narrow(shown: &Consequent) -> bool
    ensures { result ≡ true → IsNarrow (consequent_of shown.now) }
{
    match shown {
        Consequent::One(form) => is_narrow(form.get()),
        Consequent::Any(_) => false,
    }
}

/// Whether the search may be asked.
fn is_searchable(variables: usize, condition: &Condition) -> bool
    ensures { result ≡ true → IsSearchable variables condition.now }
{
    are_given_narrow(&condition.given)
        && is_consequent_narrow(&condition.shown)
        && is_condition_below(variables, condition)
}

/// The places of a state that is shown. What isn't shown isn't active.
fn places_of(alloc: Global, layout: &Layout, shown: &Shown) -> Result<Vec<u8>, Memory> {
    let mut places = Vec::with_capacity(alloc, layout.full().len())?;
    for component in 0..layout.full().len() {
        places.push(layout.inactive(component))?;
    }
    for (component, alternative) in &shown.control {
        if let Some(place) = layout.of_alternative(*alternative)
            && let Some(at) = places.get_mut(*component as usize)
        {
            *at = place.number;
        }
    }
    Ok(places)
}

/// The number of a datum; 0 where it is a truth value.
fn number_of(datum: &Datum) -> i128 {
    match datum {
        Datum::Number(number) => *number,
        Datum::Truth(_) => 0,
    }
}

fn numbers_of(alloc: Global, store: &[Datum]) -> Result<Vec<i128>, Memory> {
    let mut numbers = Vec::with_capacity(alloc, store.len())?;
    for datum in store {
        numbers.push(number_of(datum))?;
    }
    Ok(numbers)
}

/// The truth value of a datum; false where it is a number.
fn truth_of(datum: &Datum) -> bool {
    match datum {
        Datum::Number(_) => false,
        Datum::Truth(truth) => *truth,
    }
}

fn truths_of(alloc: Global, store: &[Datum]) -> Result<Vec<bool>, Memory> {
    let mut truths = Vec::with_capacity(alloc, store.len())?;
    for datum in store {
        truths.push(truth_of(datum))?;
    }
    Ok(truths)
}

/// A state that is shown.
fn state_of(alloc: Global, layout: &Layout, shown: &Shown) -> Result<State, Memory> {
    Ok(State {
        places: places_of(alloc, layout, shown)?,
        numbers: numbers_of(alloc, &shown.store)?,
        truths: truths_of(alloc, &shown.store)?,
    })
}

/// Whether a verdict shows a state that breaks the condition.
fn shows_state(verdict: &Verdict) -> bool {
    matches!(verdict, Verdict::Open(_, Some(_)))
}

/// What a verdict says of a question.
fn at_verdict(alloc: Global, layout: &Layout, verdict: &Verdict) -> Result<Asked, Memory> {
    match verdict {
        Verdict::Valid(_) => Ok(Asked::Never),
        Verdict::Open(_, Some(shown)) => Ok(Asked::State(state_of(alloc, layout, shown)?)),
        Verdict::Open(_, None) => Ok(Asked::Unknown(Why::Wide)),
        Verdict::Wide(_, _) => Ok(Asked::Unknown(Why::Wide)),
    }
}

/// The same where there may be none, since the condition is valid.
fn asked_of(alloc: Global, layout: &Layout, verdict: Option<Verdict>) -> Result<Asked, Memory> {
    match verdict {
        None => Ok(Asked::Never),
        Some(verdict) => at_verdict(alloc, layout, &verdict),
    }
}

/// The variables and components that questions speak of, and what was found for other questions.
#[derive(Drop)]
struct Answered<'a> {
    components: &'a Components,
    variables: &'a [Variable],
    book: Book,
}

impl<'a> Model for Answered<'a> {
    ghost use Rattle.std.specs.Prelude.{ℕ, length};
    ghost use Rattle.invariant_search.specs.Answered.{IsAnswered};

    ghost Value = { ℕ };

    ghost view = { λ a. length a.variables.now };

    ghost invariant = { IsAnswered };
}

impl<'a> Answered<'a> {
    /// Nothing is found. `TooLarge` where there are 2^32 variables or more.
    fn new(
        alloc: Global,
        components: &'a Components,
        variables: &'a [Variable],
    ) -> Result<Answered<'a>, CubeFault> {
        if variables.len() >= 1 << 32 {
            return Err(CubeFault::TooLarge);
        }
        Ok(Answered {
            components,
            variables,
            book: Book::new(alloc, components, variables)?,
        })
    }

    /// The verdict of the first search, where it shows no state, unless the stronger search finds that the condition is valid.
    fn second_verdict(
        &self,
        alloc: Global,
        question: &Condition,
        first: Verdict,
    ) -> Result<Option<Verdict>, Memory>
        requires { IsSearchable self.now question.now }
    {
        if shows_state(&first) {
            return Ok(Some(first));
        }
        match find(
            alloc,
            self.components,
            self.variables,
            question,
            MOST_PROBLEMS,
        )? {
            Some(_) => Ok(None),
            None => Ok(Some(first)),
        }
    }

    /// The verdict on a question, unless it is that the condition is valid. `TooLarge` where a number is too large to be asked for.
    fn verdict(
        &mut self,
        alloc: Global,
        question: &Condition,
    ) -> Result<Option<Verdict>, CubeFault> {
        if !is_searchable(self.variables.len(), question) {
            return Err(CubeFault::TooLarge);
        }
        let first = unless_valid(
            alloc,
            &mut self.book,
            self.components,
            self.variables,
            question,
        )?;
        match first {
            None => Ok(None),
            Some(verdict) => Ok(self.second_verdict(alloc, question, verdict)?),
        }
    }
}

/// What was answered, and how many questions were and may be asked.
#[derive(Drop)]
pub(crate) struct Prover<'a> {
    answered: Answered<'a>,
    queries: u64,
    budget: u64,
    ghost within: { queries ≤ budget },
}

impl<'a> Prover<'a> {
    /// One that was asked nothing. `TooLarge` where there are 2^32 variables or more.
    pub(crate) fn new(
        alloc: Global,
        components: &'a Components,
        variables: &'a [Variable],
        budget: u64,
    ) -> Result<Prover<'a>, CubeFault> {
        Ok(Prover {
            answered: Answered::new(alloc, components, variables)?,
            queries: 0,
            budget,
        })
    }

    /// How many questions were asked.
    pub(crate) fn queries(&self) -> u64 {
        self.queries
    }

    /// Whether no question may be asked any longer.
    pub(crate) fn is_spent(&self) -> bool {
        self.budget <= self.queries
    }

    /// Gives back how many questions might still be asked. From then on none is.
    pub(crate) fn give_back(&mut self) -> u64
        ensures { result + self.new.budget ≡ self.old.budget }
    {
        let left = self.budget - self.queries;
        self.budget = self.queries;
        left
    }

    /// Whether the formulas that are given are true together. `TooLarge` where a number is too large to be asked for.
    pub(crate) fn ask(
        &mut self,
        alloc: Global,
        layout: &Layout,
        question: &Condition,
    ) -> Result<Asked, CubeFault> {
        if self.queries >= self.budget {
            return Ok(Asked::Unknown(Why::Budget));
        }
        self.queries += 1;
        let verdict = self.answered.verdict(alloc, question)?;
        Ok(asked_of(alloc, layout, verdict)?)
    }
}
