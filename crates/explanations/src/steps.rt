//! The steps of a proof, each with its rule and how many of its conditions hold.

ghost use Rattle.std.specs.Prelude.{◌≡◌, IfOk, IfSome, length, map, slice_get};
ghost use Rattle.explanations.specs.Explained.{count_in, name_of, named_in};

use crate::sources::Sources;
use formula_words::{Vocabulary, sum};
use open_conditions::{Condition, Undecided};
use proof_reports::StepReport;
use source_lines::Lines;
use source_places::StepPlaces;
use st_memory::Memory;
use st_tokens::Tokens;
use std::alloc::Global;
use std::str;
use temporal_goals::{Goal, Step};

/// How many conditions each step has.
fn counts(alloc: Global, steps: usize, conditions: &[Condition]) -> Result<Vec<u64>, Memory> {
    let mut out = Vec::new(alloc);
    out.resize(steps, 0u64)?;
    for condition in conditions {
        if let Some(count) = out.get_mut(condition.name.step as usize) {
            *count = count.saturating_add(1);
        }
    }
    Ok(out)
}

/// How many of each step's conditions are open.
fn failing(
    alloc: Global,
    steps: usize,
    conditions: &[Condition],
    open: &[Undecided],
) -> Result<Vec<u64>, Memory> {
    let mut out = Vec::new(alloc);
    out.resize(steps, 0u64)?;
    for undecided in open {
        if let Some(condition) = conditions.get(undecided.place) {
            if let Some(count) = out.get_mut(condition.name.step as usize) {
                *count = count.saturating_add(1);
            }
        }
    }
    Ok(out)
}

/// The word behind a step's `by`, which names its rule; none for an invariance by itself.
fn rule_word(text: &[u8]) -> &[u8] {
    let mut tokens = Tokens::new(text);
    let mut behind = false;
    for _ in 0..text.len() {
        let Ok(Some(token)) = tokens.next() else {
            break;
        };
        if behind {
            return token.text;
        }
        behind = token.text == b"by".as_slice();
    }
    b"".as_slice()
}

fn kind(goal: &Goal) -> &'static str {
    match goal {
        Goal::Invariant(_) => "invariant",
        Goal::Waiting(_, _) => "waiting",
        Goal::Response(_, _, _) => "response",
    }
}

/// The steps of a proof, with what is told of each.
#[derive(Clone, Copy)]
pub(crate) struct Steps<'a> {
    pub text: &'a [u8],
    pub lines: &'a Lines<'a>,
    pub places: &'a [StepPlaces],
    pub words: &'a Vocabulary,
    pub steps: &'a [Step],
}

impl Steps<'_> {
    /// What a rule is called: the word behind `by` where that names one.
    fn rule(&self, alloc: Global, number: usize, goal: &Goal) -> Result<String, Memory> {
        let text = match self.places.get(number) {
            Some(places) => {
                let whole = places.whole.from as usize..places.whole.to as usize;
                rule_word(self.text.get(whole).unwrap_or(&[]))
            }
            None => b"".as_slice(),
        };
        let word = match (goal, text) {
            (Goal::Response(_, _, _), text) => str::from_utf8(text).unwrap_or(""),
            (_, b"diagram") => "diagram",
            (Goal::Invariant(_), b"") => "itself",
            (Goal::Invariant(_), _) => "a stronger formula",
            (Goal::Waiting(_, _), _) => "levels",
        };
        Ok(String::from_str(alloc, word)?)
    }

    fn using(&self, alloc: Global, step: &Step) -> Result<Vec<String>, Memory> {
        let mut out = Vec::new(alloc);
        for cited in &step.cited {
            if let Some(other) = self.steps.get(*cited as usize) {
                out.push(other.name.clone()?)?;
            }
        }
        Ok(out)
    }

    fn bound_text(&self, alloc: Global, goal: &Goal) -> Result<Option<String>, Memory> {
        match goal {
            Goal::Response(_, _, bound) => Ok(Some(sum(alloc, self.words, bound)?)),
            Goal::Invariant(_) => Ok(None),
            Goal::Waiting(_, _) => Ok(None),
        }
    }

    fn step_line(&self, number: usize) -> u64 {
        match self.places.get(number) {
            Some(places) => self.lines.position(places.whole.from).line as u64,
            None => 0,
        }
    }

    fn step_report(
        &self,
        alloc: Global,
        number: usize,
        step: &Step,
        conditions: u64,
        failing: u64,
    ) -> Result<StepReport, Memory>
        ensures name { IfOk result (λ r. named_in r ≡ name_of step.now) }
        ensures count { IfOk result (λ r. count_in r ≡ conditions) }
    {
        let verdict = if failing == 0 { "proved" } else { "not proved" };
        Ok(StepReport {
            name: step.name.clone()?,
            kind: String::from_str(alloc, kind(&step.goal))?,
            rule: self.rule(alloc, number, &step.goal)?,
            using: self.using(alloc, step)?,
            bound: self.bound_text(alloc, &step.goal)?,
            line: self.step_line(number),
            conditions,
            failing,
            verdict: String::from_str(alloc, verdict)?,
        })
    }
}

/// The number at a place, 0 where there is none.
fn at(counts: &[u64], place: usize) -> u64
    ensures { IfSome (slice_get counts.now place) (λ n. result ≡ n) }
{
    match counts.get(place) {
        Some(count) => *count,
        None => 0,
    }
}

/// The steps, with how many conditions each has, and how many of them are left.
pub(crate) fn step_reports(
    alloc: Global,
    told: &Steps<'_>,
    all: &[u64],
    left: &[u64],
) -> Result<Vec<StepReport>, Memory>
    ensures names { IfOk result (λ v. map named_in v.items ≡ map name_of told.now.steps.now) }

    // Each step is said to have as many as it has, where all their numbers are given.
    ensures counts { IfOk result (λ v. length all.now ≡ length told.now.steps.now → map count_in v.items ≡ all.now) }
{
    let mut out = Vec::new(alloc);
    for (number, step) in told.steps.iter().enumerate() {
        let conditions = at(all, number);
        let failing = at(left, number);
        out.push(told.step_report(alloc, number, step, conditions, failing)?)?;
    }
    Ok(out)
}

impl Sources<'_> {
    /// All steps, with these conditions open.
    pub(crate) fn steps_with(
        &self,
        alloc: Global,
        open: &[Undecided],
    ) -> Result<Vec<StepReport>, Memory>
        ensures { IfOk result (λ v. map named_in v.items ≡ map name_of self.now.posed.now.script.steps.items) }
    {
        let told = Steps {
            text: self.texts.proof,
            lines: self.proof,
            places: &self.places.steps,
            words: self.words,
            steps: &self.posed.script.steps,
        };
        let all = counts(alloc, told.steps.len(), &self.posed.conditions)?;
        let left = failing(alloc, told.steps.len(), &self.posed.conditions, open)?;
        step_reports(alloc, &told, &all, &left)
    }
}
