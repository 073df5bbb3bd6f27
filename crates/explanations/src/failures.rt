//! A condition that isn't decided valid, explained.

ghost use Rattle.std.specs.Prelude.{◌≡◌, IfOk};
ghost use Rattle.st_form.specs.Shared.{given_of, shown_of};
ghost use Rattle.farkas_check.specs.Limits.{IsNarrow};
ghost use Rattle.explanations.specs.Explained.{Stands, number_of};

use crate::mentions::Mentions;
use crate::nets::{item_number, items_of};
use crate::parts::Broken;
use crate::sentences::premise_word;
use crate::sources::{Sources, number};
use crate::tables::Passage;
use crate::turns::numbered;
use formula_words::formula;
use open_conditions::{Condition, Undecided, Verdict};
use proof_reports::{Case, Failure, Row, Spot, Turn};
use refuting_states::tested_state;
use shown_states::Picture;
use source_places::StepPlaces;
use st_form::{Change, CondName, Consequent, Premise, SharedForm, TransName};
use st_memory::Memory;
use std::alloc::Global;
use temporal_goals::{RuleText, Step};

fn reason(verdict: &Verdict) -> &'static str {
    match verdict {
        Verdict::Valid(_) => "valid",
        Verdict::Open(_, _) => "open",
        Verdict::Wide(_, _) => "wide",
    }
}

/// What is said of a false conjunct, or of the item of a condition.
fn note(premise: Premise) -> &'static str {
    match premise {
        Premise::Keep => "false behind the step",
        Premise::Start => "false at the start",
        Premise::Implies => "false in this state",
        Premise::Cover => "a wait begins in this state",
        Premise::Level | Premise::Target => "this holds in the state",
        Premise::Rank => "the state is of this item",
        Premise::Help => "the state is of this item, and its helper can't be taken",
        Premise::Move => "the step begins in a state of this item",
    }
}

/// The place of the item that a condition of a net is of, among the items of its text.
fn item_place(rule: &RuleText, name: &CondName) -> Option<usize> {
    match (rule, name.node) {
        (RuleText::Net(_) | RuleText::Nested(_), Some(node)) => Some(node as usize),
        (_, _) => None,
    }
}

/// What is known of a condition in the state that refutes it.
#[derive(Drop)]
struct Refutation {
    broken: Vec<Broken>,
    state: Vec<Row>,
    turn: Option<Turn>,
    alternatives: Vec<Case>,
    excluded_by: Vec<String>,
}

fn texts_of(alloc: Global, broken: Vec<Broken>) -> Result<Vec<String>, Memory> {
    let mut out = Vec::new(alloc);
    for part in broken {
        out.push(part.text)?;
    }
    Ok(out)
}

impl Sources<'_> {
    /// The state that refutes a condition: the verdict tells one, or the second search comes to one.
    fn refuting(
        &self,
        alloc: Global,
        condition: &Condition,
        verdict: &Verdict,
    ) -> Result<Option<Picture>, Memory>
        requires given { IsNarrow (given_of condition.now) }
        requires shown { IsNarrow (shown_of condition.now) }
    {
        let source = self.source;
        match verdict {
            Verdict::Open(_, Some(shown)) => Ok(Some(Picture::of(alloc, shown)?)),
            Verdict::Open(_, None) => {
                let variables = &source.program.variables;
                tested_state(alloc, &source.components, variables, condition)
            }
            Verdict::Wide(_, _) => Ok(None),
            Verdict::Valid(_) => Ok(None),
        }
    }

    /// The change that the step of a condition makes.
    fn change<'x>(&'x self, name: &CondName) -> Option<(&'x Change, TransName)> {
        let source = self.source;
        let trans = name.trans?;
        let number = source.system.find(trans)?;
        let transition = source.system.transitions.get(number as usize)?;
        let mode = transition.modes.get((name.mode as usize).checked_sub(1)?)?;
        Some((&mode.change, trans))
    }

    /// The state behind the step of a condition, with the change that leads there.
    fn behind(
        &self,
        alloc: Global,
        name: &CondName,
        before: &Picture,
    ) -> Result<Option<Picture>, Memory> {
        match self.change(name) {
            Some((change, trans)) => {
                before.behind(alloc, &self.source.components, change, trans)
            }
            None => Ok(None),
        }
    }

    /// Where the step of the proof stands, as its item or its claim.
    fn step_spot(
        &self,
        alloc: Global,
        places: &StepPlaces,
        step: &Step,
        name: &CondName,
    ) -> Result<Spot, Memory> {
        let item = item_place(&step.rule, name).and_then(|place| places.items.get(place));
        let span = match (item, name.node) {
            (Some(item), _) => item.formula.unwrap_or(item.whole),
            (None, None) => places.claim.first().copied().unwrap_or(places.name),
            (None, Some(_)) => places.name,
        };
        self.in_proof(alloc, span, note(name.premise))
    }

    /// The false conjuncts in the proof, or else what the condition is of.
    fn proof_spots(
        &self,
        alloc: Global,
        step: &Step,
        name: &CondName,
        broken: &[Broken],
    ) -> Result<Vec<Spot>, Memory> {
        let mut out = Vec::new(alloc);
        let Some(places) = self.places.steps.get(name.step as usize) else {
            return Ok(out);
        };
        for part in broken {
            let note = note(name.premise);
            out.push(self.broken_spot(alloc, places, step, name, part, note)?)?;
        }
        if out.is_empty() {
            out.push(self.step_spot(alloc, places, step, name)?)?;
        }
        Ok(out)
    }

    /// The statement that a condition's step is of, or that its helper is.
    fn statement_spot(
        &self,
        alloc: Global,
        occurrence: u32,
        note: &str,
    ) -> Result<Option<Spot>, Memory> {
        match self.places.statements.get(occurrence as usize) {
            Some(place) => Ok(Some(self.in_program(alloc, place.head, note)?)),
            None => Ok(None),
        }
    }

    /// All places that a failure speaks of: those in the proof first.
    fn spots(
        &self,
        alloc: Global,
        step: &Step,
        name: &CondName,
        broken: &[Broken],
    ) -> Result<Vec<Spot>, Memory> {
        let mut out = self.proof_spots(alloc, step, name, broken)?;
        let (trans, note) = match name.trans {
            Some(trans) => (Some(trans), "by this statement"),
            None => (
                self.awaited(alloc, step, name)?,
                "which isn't enabled in this state",
            ),
        };
        if let Some(TransName::Step { occ, part: _ }) = trans {
            if let Some(spot) = self.statement_spot(alloc, occ, note)? {
                out.push(spot)?;
            }
        }
        Ok(out)
    }

    /// What a condition speaks of.
    fn spoken_of(&self, alloc: Global, condition: &Condition) -> Result<Mentions, Memory> {
        let source = self.source;
        let variables = source.program.variables.len();
        let locations = source.system.locations as usize;
        Mentions::of_condition(alloc, variables, locations, condition)
    }

    fn conjunction(&self, alloc: Global, forms: &[SharedForm]) -> Result<String, Memory> {
        let mut out = String::new(alloc);
        for (number, form) in forms.iter().enumerate() {
            if 0 < number {
                out.push_str(" /\\ ")?;
            }
            let text = formula(alloc, self.words, form.get())?;
            out.push_str(text.as_str())?;
        }
        Ok(out)
    }

    /// What a condition is to show, as text.
    fn shown(&self, alloc: Global, shown: &Consequent) -> Result<String, Memory> {
        match shown {
            Consequent::One(form) => formula(alloc, self.words, form.get()),
            Consequent::Any(cases) => {
                let mut out = String::new(alloc);
                for (number, case) in cases.iter().enumerate() {
                    if 0 < number {
                        out.push_str("\nor ")?;
                    }
                    let text = self.conjunction(alloc, case)?;
                    out.push_str(text.as_str())?;
                }
                Ok(out)
            }
        }
    }
}

impl Sources<'_> {
    /// The transition that the item of a `help` waits for.
    fn awaited(
        &self,
        alloc: Global,
        step: &Step,
        name: &CondName,
    ) -> Result<Option<TransName>, Memory> {
        if name.premise != Premise::Help {
            return Ok(None);
        }
        let items = items_of(alloc, &step.rule)?;
        let number = name.node.map(|node| item_number(&step.rule, node));
        let item = number.and_then(|number| numbered(&items, number));
        let source = self.source;
        let transition = item
            .and_then(|item| item.helper.or(item.group))
            .and_then(|number| source.system.transitions.get(number as usize));
        Ok(transition.map(|transition| transition.name))
    }

    /// What is known of a condition in the state that refutes it.
    fn refuted<'x>(
        &'x self,
        alloc: Global,
        step: &Step,
        condition: &Condition,
        before: &'x Picture,
    ) -> Result<Refutation, Memory> {
        let name = &condition.name;
        let after = self.behind(alloc, name, before)?;
        let mentions = self.spoken_of(alloc, condition)?;
        let passage = Passage {
            before,
            after: match (&after, self.change(name)) {
                (Some(after), Some((change, _))) => Some((after, change)),
                (_, _) => None,
            },
        };
        Ok(Refutation {
            broken: self.broken(alloc, step, name, passage.last())?,
            state: self.table(alloc, passage, &mentions)?,
            turn: self.turn(alloc, step, name, passage)?,
            alternatives: self.cases(alloc, step, name, passage)?,
            excluded_by: self.excluding(alloc, name.step, step, &mentions, before)?,
        })
    }

    fn refutation(
        &self,
        alloc: Global,
        step: &Step,
        condition: &Condition,
        verdict: &Verdict,
    ) -> Result<Refutation, Memory>
        requires given { IsNarrow (given_of condition.now) }
        requires shown { IsNarrow (shown_of condition.now) }
    {
        match self.refuting(alloc, condition, verdict)? {
            Some(before) => self.refuted(alloc, step, condition, &before),
            None => Ok(Refutation {
                broken: Vec::new(alloc),
                state: Vec::new(alloc),
                turn: None,
                alternatives: Vec::new(alloc),
                excluded_by: Vec::new(alloc),
            }),
        }
    }

    fn transition_name(&self, alloc: Global, name: &CondName) -> Result<Option<String>, Memory> {
        match name.trans {
            Some(trans) => Ok(Some(self.words.transition(alloc, trans)?)),
            None => Ok(None),
        }
    }

    /// A condition of a step that isn't decided valid, explained.
    fn failure_of(
        &self,
        alloc: Global,
        step: &Step,
        condition: &Condition,
        undecided: &Undecided,
    ) -> Result<Failure, Memory>
        requires given { IsNarrow (given_of condition.now) }
        requires shown { IsNarrow (shown_of condition.now) }
        ensures { IfOk result (λ f. f.number ≡ number_of undecided.now) }
    {
        let name = &condition.name;
        let refutation = self.refutation(alloc, step, condition, &undecided.verdict)?;
        Ok(Failure {
            number: number(undecided),
            name: self.condition_name(alloc, step, name)?,
            step: step.name.clone()?,
            premise: String::from_str(alloc, premise_word(name.premise))?,
            node: name.node.map(|node| item_number(&step.rule, node)),
            transition: self.transition_name(alloc, name)?,
            mode: u64::from(name.mode),
            reason: String::from_str(alloc, reason(&undecided.verdict))?,
            title: self.title(alloc, step, name, refutation.turn.as_ref())?,
            words: self.words(alloc, step, name)?,
            spots: self.spots(alloc, step, name, &refutation.broken)?,
            state: refutation.state,
            broken: texts_of(alloc, refutation.broken)?,
            alternatives: refutation.alternatives,
            excluded_by: refutation.excluded_by,
            turn: refutation.turn,
            shown: self.shown(alloc, &condition.shown)?,
        })
    }

    /// A condition that isn't decided valid, explained.
    pub(crate) fn failure(&self, alloc: Global, undecided: &Undecided) -> Result<Failure, Memory>
        requires { Stands self.now.posed.now undecided.now }
        ensures { IfOk result (λ f. f.number ≡ number_of undecided.now) }
    {
        let posed = self.posed;
        let condition = &posed.conditions[undecided.place];
        let step = &posed.script.steps[condition.name.step as usize];
        self.failure_of(alloc, step, condition, undecided)
    }
}
