//! Whose turn it is where a response or a waiting-for isn't proved: which items hold, how many rounds they ask for, which helper is
//! waited for, and what may be done.

use crate::nets::{RuleItem, item_number, items_of};
use crate::sources::Sources;
use crate::tables::Passage;
use formula_words::formula;
use proof_reports::{Item, Turn};
use shown_states::Picture;
use st_form::{CondName, Premise, TransName};
use st_memory::Memory;
use std::alloc::Global;
use temporal_goals::{DiagramKind, Goal, RuleText, Step};

/// Whether an item's number is how many rounds it asks for, as in a chain that is drawn.
fn is_counted(rule: &RuleText) -> bool {
    match rule {
        RuleText::Diagram(diagram) => diagram.kind == DiagramKind::Chain,
        RuleText::Basic | RuleText::Stronger(_) | RuleText::Levels(_) => false,
        RuleText::Net(_) | RuleText::Nested(_) => false,
    }
}

/// How many rounds an item asks for in a state: one more than its measure there.
pub(crate) fn rounds(rule: &RuleText, item: &RuleItem<'_>, state: &Picture) -> Option<i128> {
    match item.top {
        Some(top) => state.value(top).map(|value| value.saturating_add(1)),
        None if is_counted(rule) => Some(i128::from(item.number)),
        None => None,
    }
}

/// How many rounds are left at an item in a state, so that the next has to ask for no more.
pub(crate) fn left(rule: &RuleText, item: &RuleItem<'_>, state: &Picture) -> Option<i128> {
    match item.base {
        Some(base) => state.value(base),
        None if is_counted(rule) => Some(i128::from(item.number).saturating_sub(1)),
        None => None,
    }
}

fn number_text(alloc: Global, number: Option<i128>) -> Result<Option<String>, Memory> {
    match number {
        Some(number) => Ok(Some(format!(in alloc; "{number}")?)),
        None => Ok(None),
    }
}

/// The item with a number.
pub(crate) fn numbered<'a>(items: &[RuleItem<'a>], number: u64) -> Option<RuleItem<'a>> {
    for item in items {
        if item.number == number {
            return Some(*item);
        }
    }
    None
}

impl Sources<'_> {
    /// The name of a transition by its number.
    pub(crate) fn transition_at(
        &self,
        alloc: Global,
        number: u32,
    ) -> Result<Option<String>, Memory> {
        let source = self.source;
        match source.system.transitions.get(number as usize) {
            Some(transition) => Ok(Some(self.words.transition(alloc, transition.name)?)),
            None => Ok(None),
        }
    }

    /// The transitions but idling that can be taken in a state, as far as no number is too large to tell.
    fn enabled(&self, alloc: Global, state: &Picture) -> Result<Vec<String>, Memory> {
        let source = self.source;
        let mut out = Vec::new(alloc);
        for transition in &source.system.transitions {
            if transition.name != TransName::Idle && state.is_enabled(transition) == Ok(true) {
                out.push(self.words.transition(alloc, transition.name)?)?;
            }
        }
        Ok(out)
    }

    /// Whether no transition but idling can be taken in a state.
    fn is_stuck(&self, state: &Picture) -> bool {
        let source = self.source;
        for transition in &source.system.transitions {
            if transition.name != TransName::Idle && state.is_enabled(transition) != Ok(false) {
                return false;
            }
        }
        true
    }

    fn item(
        &self,
        alloc: Global,
        rule: &RuleText,
        item: &RuleItem<'_>,
        state: &Picture,
    ) -> Result<Item, Memory> {
        Ok(Item {
            number: item.number,
            formula: formula(alloc, self.words, item.form)?,
            holds: state.holds(item.form) == Some(true),
            rounds: number_text(alloc, rounds(rule, item, state))?,
        })
    }

    fn items(
        &self,
        alloc: Global,
        rule: &RuleText,
        items: &[RuleItem<'_>],
        state: &Picture,
    ) -> Result<Vec<Item>, Memory> {
        let mut out = Vec::new(alloc);
        for item in items {
            out.push(self.item(alloc, rule, item, state)?)?;
        }
        Ok(out)
    }

    /// What the items may ask for: the bound where a response begins, and what is left where it goes on.
    fn bound(
        &self,
        alloc: Global,
        step: &Step,
        current: Option<RuleItem<'_>>,
        before: &Picture,
    ) -> Result<Option<String>, Memory> {
        match (current, &step.goal) {
            (Some(item), _) => number_text(alloc, left(&step.rule, &item, before)),
            (None, Goal::Response(_, _, bound)) => number_text(alloc, before.value(bound)),
            (None, Goal::Invariant(_) | Goal::Waiting(_, _)) => Ok(None),
        }
    }

    /// The helper of an item, or else the compassionate transition that it waits for.
    fn helper(&self, alloc: Global, item: Option<RuleItem<'_>>) -> Result<Option<String>, Memory> {
        match item.and_then(|item| item.helper.or(item.group)) {
            Some(number) => self.transition_at(alloc, number),
            None => Ok(None),
        }
    }

    /// Whose turn it is in the states of a condition; `None` for an invariance.
    pub(crate) fn turn(
        &self,
        alloc: Global,
        step: &Step,
        name: &CondName,
        passage: Passage<'_>,
    ) -> Result<Option<Turn>, Memory> {
        let items = items_of(alloc, &step.rule)?;
        if items.is_empty() {
            return Ok(None);
        }
        let number = name.node.map(|node| item_number(&step.rule, node));
        let current = number.and_then(|number| numbered(&items, number));
        let enabled = self.enabled(alloc, passage.before)?;
        let stuck = name.premise != Premise::Move && self.is_stuck(passage.before);
        Ok(Some(Turn {
            item: number,
            helper: self.helper(alloc, current)?,
            deadlock: stuck,
            enabled,
            bound: self.bound(alloc, step, current, passage.before)?,
            items: self.items(alloc, &step.rule, &items, passage.last())?,
        }))
    }
}
