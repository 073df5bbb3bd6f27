//! What a step from an item of a response has to lead to, and why it leads to none of it: the goal, an item that asks for no more
//! than is left, or the same item (rule `move` of nets in `docs/use/proofs.md`).

use crate::nets::{RuleItem, item_number, items_of};
use crate::sources::Sources;
use crate::tables::Passage;
use crate::turns::{left, numbered, rounds};
use formula_words::formula;
use proof_reports::Case;
use shown_states::Picture;
use st_form::{CondName, Form, Premise};
use st_memory::Memory;
use std::alloc::{AllocError, Global};
use temporal_goals::{Goal, RuleText, Step};

/// What ends the wait.
fn target(step: &Step) -> Option<&Form> {
    match &step.goal {
        Goal::Response(_, target, _) => Some(target),
        Goal::Waiting(_, levels) => levels.last(),
        Goal::Invariant(_) => None,
    }
}

/// So many rounds.
fn counted_rounds(alloc: Global, count: i128) -> Result<String, AllocError> {
    let ending = if count == 1 { "" } else { "s" };
    format!(in alloc; "{count} round{ending}")
}

fn case(alloc: Global, number: usize, meaning: String) -> Result<Case, Memory> {
    Ok(Case {
        number: number as u64,
        meaning,
        missing: Vec::new(alloc),
    })
}

impl Sources<'_> {
    /// Adds a formula's conjuncts that are false in a state.
    fn push_missing(
        &self,
        alloc: Global,
        form: &Form,
        state: &Picture,
        out: &mut Vec<String>,
    ) -> Result<(), Memory> {
        let parts = match form {
            Form::And(parts) => parts.as_slice(),
            _ => std::slice::from_ref(form),
        };
        for part in parts {
            if state.holds(part) == Some(false) {
                out.push(formula(alloc, self.words, part)?)?;
            }
        }
        Ok(())
    }

    fn goal_case(&self, alloc: Global, form: &Form, state: &Picture) -> Result<Case, Memory> {
        let mut case = case(alloc, 1, String::from_str(alloc, "the goal")?)?;
        self.push_missing(alloc, form, state, &mut case.missing)?;
        Ok(case)
    }

    /// Why no step leads on to an item whose formula holds.
    fn drop_case(
        &self,
        alloc: Global,
        rule: &RuleText,
        item: &RuleItem<'_>,
        remaining: Option<i128>,
        state: &Picture,
    ) -> Result<Case, Memory> {
        let meaning = format!(in alloc; "a drop to item {}", item.number)?;
        let mut case = case(alloc, 2, meaning)?;
        let reason = match (rounds(rule, item, state), remaining) {
            (Some(asked), Some(remaining)) => {
                let needed = counted_rounds(alloc, asked)?;
                let are = if remaining == 1 { "is" } else { "are" };
                format!(in alloc; "it asks for {needed}, and {remaining} {are} left")?
            }
            (Some(asked), None) => {
                format!(in alloc; "it asks for {}", counted_rounds(alloc, asked)?)?
            }
            (None, _) => String::from_str(alloc, "it isn't lower")?,
        };
        case.missing.push(reason)?;
        Ok(case)
    }

    /// Why the step may not stay in its item.
    fn stay_case(
        &self,
        alloc: Global,
        item: &RuleItem<'_>,
        transition: Option<u32>,
        state: &Picture,
    ) -> Result<Case, Memory> {
        let meaning = format!(in alloc; "to stay in item {}", item.number)?;
        let mut case = case(alloc, 3, meaning)?;
        if transition.is_some() && (transition == item.helper || transition == item.group) {
            let reason = "the step is the one that the item waits for, so it has to lead on";
            case.missing.push(String::from_str(alloc, reason)?)?;
            return Ok(case);
        }
        self.push_missing(alloc, item.form, state, &mut case.missing)?;
        if case.missing.is_empty() {
            let reason = "a number of the item rises";
            case.missing.push(String::from_str(alloc, reason)?)?;
        }
        Ok(case)
    }

    /// The items that hold behind a step, as drops that aren't allowed; one case for all where none holds.
    fn drop_cases(
        &self,
        alloc: Global,
        rule: &RuleText,
        items: &[RuleItem<'_>],
        remaining: Option<i128>,
        state: &Picture,
        out: &mut Vec<Case>,
    ) -> Result<(), Memory> {
        let mut some = false;
        for item in items {
            if state.holds(item.form) == Some(true) {
                out.push(self.drop_case(alloc, rule, item, remaining, state)?)?;
                some = true;
            }
        }
        if !some {
            let mut none = case(alloc, 2, String::from_str(alloc, "a drop to an item")?)?;
            none.missing
                .push(String::from_str(alloc, "none of them holds")?)?;
            out.push(none)?;
        }
        Ok(())
    }

    /// What a step from an item has to lead to, and why it doesn't; nothing for other conditions.
    pub(crate) fn cases(
        &self,
        alloc: Global,
        step: &Step,
        name: &CondName,
        passage: Passage<'_>,
    ) -> Result<Vec<Case>, Memory> {
        let mut out = Vec::new(alloc);
        if name.premise != Premise::Move {
            return Ok(out);
        }
        let state = passage.last();
        if let Some(form) = target(step) {
            out.push(self.goal_case(alloc, form, state)?)?;
        }
        let items = items_of(alloc, &step.rule)?;
        let number = name.node.map(|node| item_number(&step.rule, node));
        if let Some(item) = number.and_then(|number| numbered(&items, number)) {
            let remaining = left(&step.rule, &item, passage.before);
            self.drop_cases(alloc, &step.rule, &items, remaining, state, &mut out)?;
            let transition = name.trans.and_then(|name| self.source.system.find(name));
            out.push(self.stay_case(alloc, &item, transition, state)?)?;
        }
        Ok(out)
    }
}
