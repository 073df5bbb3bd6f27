//! Which conjuncts of a claim are false. Chains of `/\` are read as lists in text order, so conjunct k of a formula stands at the
//! k-th place of its text.

use crate::sources::Sources;
use formula_words::formula;
use proof_reports::Spot;
use shown_states::Picture;
use source_places::{Span, StepPlaces};
use st_form::{CondName, Form, Premise};
use st_memory::Memory;
use std::alloc::Global;
use temporal_goals::{Goal, RuleText, Step};

/// The conjuncts of a formula; one that is no conjunction is its only one.
fn conjuncts(form: &Form) -> &[Form] {
    match form {
        Form::And(parts) => parts.as_slice(),
        Form::True | Form::False | Form::Row(_) | Form::Equal(_) => std::slice::from_ref(form),
        Form::BoolVar(_) | Form::At(_) | Form::Not(_) | Form::Or(_) => std::slice::from_ref(form),
    }
}

/// What an invariance claims.
pub(crate) fn claimed(step: &Step) -> Option<&Form> {
    match &step.goal {
        Goal::Invariant(form) => Some(form),
        Goal::Waiting(_, _) => None,
        Goal::Response(_, _, _) => None,
    }
}

/// What the steps of the program have to keep: what stands behind `by`, or else the claim.
fn kept(step: &Step) -> Option<&Form> {
    match &step.rule {
        RuleText::Stronger(form) => Some(form),
        RuleText::Basic => claimed(step),
        RuleText::Levels(_) | RuleText::Net(_) | RuleText::Diagram(_) | RuleText::Nested(_) => None,
    }
}

/// The formula whose conjuncts a condition of an invariance is to show.
fn wanted<'a>(step: &'a Step, name: &CondName) -> Option<&'a Form> {
    match name.premise {
        Premise::Keep => kept(step),
        Premise::Start => kept(step),
        Premise::Implies => claimed(step),
        Premise::Cover | Premise::Level | Premise::Target => None,
        Premise::Rank | Premise::Help | Premise::Move => None,
    }
}

/// Where the formula stands whose conjuncts a condition of an invariance is to show.
fn place_of(places: &StepPlaces, name: &CondName) -> Span {
    let claim = places.claim.first().copied();
    match (name.premise, places.by) {
        (Premise::Implies, _) => claim.unwrap_or(places.name),
        (_, Some(by)) => by,
        (_, None) => claim.unwrap_or(places.name),
    }
}

/// A conjunct that is false in the last state: its place among the conjuncts, and its text.
#[derive(Drop)]
pub(crate) struct Broken {
    pub place: usize,
    pub text: String,
}

impl Sources<'_> {
    /// The conjuncts, of those that the condition is to show, which are false in a state.
    pub(crate) fn broken(
        &self,
        alloc: Global,
        step: &Step,
        name: &CondName,
        state: &Picture,
    ) -> Result<Vec<Broken>, Memory> {
        let mut out = Vec::new(alloc);
        if let Some(form) = wanted(step, name) {
            for (place, part) in conjuncts(form).iter().enumerate() {
                if state.holds(part) == Some(false) {
                    let text = formula(alloc, self.words, part)?;
                    out.push(Broken { place, text })?;
                }
            }
        }
        Ok(out)
    }

    /// Where a false conjunct stands in the proof.
    pub(crate) fn broken_spot(
        &self,
        alloc: Global,
        places: &StepPlaces,
        step: &Step,
        name: &CondName,
        broken: &Broken,
        note: &str,
    ) -> Result<Spot, Memory> {
        let whole = place_of(places, name);
        let spans = source_places::conjuncts(alloc, self.texts.proof, whole)?;
        let count = wanted(step, name).map(|form| conjuncts(form).len());
        let span = if count == Some(spans.len()) {
            spans.get(broken.place).copied().unwrap_or(whole)
        } else {
            whole
        };
        self.in_proof(alloc, span, note)
    }
}
