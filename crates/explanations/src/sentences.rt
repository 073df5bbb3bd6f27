//! What a condition says, in words: a title for the one that fails, and a sentence of what is asked.

use crate::nets::{item_number, items_of};
use crate::sources::Sources;
use crate::turns::numbered;
use proof_reports::Turn;
use st_form::{CondName, Part, Premise, TransName};
use st_memory::Memory;
use st_program::{Kind, Stmt};
use std::alloc::Global;
use temporal_goals::{Goal, RuleText, Step};

/// A premise as `step` prints it.
pub(crate) fn premise_word(premise: Premise) -> &'static str {
    match premise {
        Premise::Implies => "implies",
        Premise::Start => "start",
        Premise::Keep => "keep",
        Premise::Cover => "cover",
        Premise::Level => "level",
        Premise::Target => "target",
        Premise::Rank => "rank",
        Premise::Help => "help",
        Premise::Move => "move",
    }
}

/// What the items of a rule are called.
pub(crate) fn item_word(rule: &RuleText) -> &'static str {
    match rule {
        RuleText::Levels(_) => "level",
        RuleText::Diagram(_) => "node",
        RuleText::Basic | RuleText::Stronger(_) | RuleText::Net(_) | RuleText::Nested(_) => "item",
    }
}

/// One of a rule's items, whichever.
fn some_item(rule: &RuleText) -> &'static str {
    match rule {
        RuleText::Levels(_) => "a level",
        RuleText::Diagram(_) => "a node",
        RuleText::Basic | RuleText::Stronger(_) | RuleText::Net(_) | RuleText::Nested(_) => {
            "an item"
        }
    }
}

/// Which way through a statement a mode is.
fn mode_words(statement: Option<&Stmt>, mode: u32) -> &'static str {
    let Some(statement) = statement else {
        return "";
    };
    match (&statement.kind, mode) {
        (Kind::While { .. } | Kind::If { .. }, 1) => ", its test true,",
        (Kind::While { .. } | Kind::If { .. }, _) => ", its test false,",
        (_, _) => "",
    }
}

/// Whether some item that holds asks for more than there is.
fn asks_too_much(turn: Option<&Turn>) -> bool {
    match turn {
        Some(turn) => turn.items.iter().any(|item| item.holds),
        None => false,
    }
}

impl Sources<'_> {
    /// The name of a condition as `step` prints it, but for what has no label, which is called by its line and column.
    pub(crate) fn condition_name(
        &self,
        alloc: Global,
        step: &Step,
        name: &CondName,
    ) -> Result<String, Memory> {
        let mut out = format!(in alloc; "{} {}", step.name, premise_word(name.premise))?;
        if let Some(node) = name.node {
            let number = format!(in alloc; " {}", item_number(&step.rule, node))?;
            out.push_str(number.as_str())?;
        }
        if let Some(trans) = name.trans {
            let trans = self.words.transition(alloc, trans)?;
            let taken = format!(in alloc; " {trans} {}", name.mode)?;
            out.push_str(taken.as_str())?;
        }
        Ok(out)
    }

    /// The item that a condition is of, by kind and number.
    fn item_name(&self, alloc: Global, step: &Step, name: &CondName) -> Result<String, Memory> {
        let word = item_word(&step.rule);
        match name.node {
            Some(node) => Ok(format!(in alloc; "{word} {}", item_number(&step.rule, node))?),
            None => Ok(String::from_str(alloc, word)?),
        }
    }

    /// The process in which a statement stands.
    fn process_of(&self, occurrence: u32) -> &str {
        match self.places.statements.get(occurrence as usize) {
            Some(place) => self.process_name(place.process),
            None => "?",
        }
    }

    /// The name of the n-th process, which is the n-th component that isn't a child.
    fn process_name(&self, process: usize) -> &str {
        let mut seen: usize = 0;
        for component in 0..self.source.components.count() {
            if self.source.components.around(component).is_none() {
                if seen == process {
                    return self.words.component(component);
                }
                seen = seen.saturating_add(1);
            }
        }
        "?"
    }

    /// The statement that a step of the program is of, with its text and its process.
    fn statement_words(
        &self,
        alloc: Global,
        occurrence: u32,
        part: Part,
        mode: u32,
    ) -> Result<String, Memory> {
        let part = match part {
            Part::Whole => "statement",
            Part::Entry => "the entry of",
            Part::Exit => "the exit of",
        };
        let text = self.statement_text(alloc, occurrence)?;
        let process = self.process_of(occurrence);
        let way = mode_words(self.source.program.statement(occurrence), mode);
        Ok(format!(in alloc; "{part} `{text}` of {process}{way}")?)
    }

    /// Who makes a step.
    fn mover(&self, alloc: Global, name: &CondName) -> Result<String, Memory> {
        match name.trans {
            Some(TransName::Step { occ, part }) => {
                self.statement_words(alloc, occ, part, name.mode)
            }
            Some(TransName::Idle) => Ok(String::from_str(alloc, "idling")?),
            None => Ok(String::from_str(alloc, "the step")?),
        }
    }

    /// The transition that an item waits for.
    fn helper_name(&self, alloc: Global, step: &Step, name: &CondName) -> Result<String, Memory> {
        let items = items_of(alloc, &step.rule)?;
        let number = name.node.map(|node| item_number(&step.rule, node));
        let item = number.and_then(|number| numbered(&items, number));
        let helper = match item.and_then(|item| item.helper.or(item.group)) {
            Some(number) => self.transition_at(alloc, number)?,
            None => None,
        };
        match helper {
            Some(helper) => Ok(helper),
            None => Ok(String::from_str(alloc, "?")?),
        }
    }

    fn cover_title(
        &self,
        alloc: Global,
        step: &Step,
        turn: Option<&Turn>,
    ) -> Result<String, Memory> {
        let word = item_word(&step.rule);
        if asks_too_much(turn) && matches!(&step.goal, Goal::Response(_, _, _)) {
            return Ok(format!(in alloc; "the bound of `{}` is too small", step.name)?);
        }
        Ok(format!(in alloc; "`{}` begins in a state where no {word} holds", step.name)?)
    }

    fn move_title(&self, alloc: Global, step: &Step, name: &CondName) -> Result<String, Memory> {
        let item = self.item_name(alloc, step, name)?;
        let trans = match name.trans {
            Some(trans) => self.words.transition(alloc, trans)?,
            None => String::from_str(alloc, "?")?,
        };
        Ok(format!(in alloc;
            "`{trans}` leads from {item} of `{}` where the rule doesn't allow it",
            step.name
        )?)
    }

    fn keep_title(&self, alloc: Global, step: &Step, name: &CondName) -> Result<String, Memory> {
        match name.trans {
            Some(trans) => {
                let trans = self.words.transition(alloc, trans)?;
                Ok(format!(in alloc; "`{trans}` doesn't keep `{}`", step.name)?)
            }
            None => Ok(format!(in alloc; "`{}` isn't kept", step.name)?),
        }
    }

    /// The title of a condition that fails.
    pub(crate) fn title(
        &self,
        alloc: Global,
        step: &Step,
        name: &CondName,
        turn: Option<&Turn>,
    ) -> Result<String, Memory> {
        let goal = step.name.as_str();
        let item = self.item_name(alloc, step, name)?;
        match name.premise {
            Premise::Keep => self.keep_title(alloc, step, name),
            Premise::Cover => self.cover_title(alloc, step, turn),
            Premise::Move => self.move_title(alloc, step, name),
            Premise::Start => Ok(format!(in alloc; "`{goal}` doesn't hold at the start")?),
            Premise::Implies => {
                Ok(format!(in alloc;
                    "what stands behind `by` doesn't imply the claim of `{goal}`"
                )?)
            }
            Premise::Level => {
                Ok(format!(in alloc;
                    "{item} of `{goal}` doesn't imply the goal's formula of that level"
                )?)
            }
            Premise::Target => {
                Ok(format!(in alloc;
                    "the terminal node of `{goal}` doesn't imply what is to be reached"
                )?)
            }
            Premise::Rank => Ok(format!(in alloc;
                "a number of {item} of `{goal}` is below 0 or past its top"
            )?),
            Premise::Help => {
                let helper = self.helper_name(alloc, step, name)?;
                Ok(format!(in alloc;
                    "the helper `{helper}` of {item} of `{goal}` can't be taken there"
                )?)
            }
        }
    }

    /// What is asked, after the step's name.
    fn asked(&self, alloc: Global, step: &Step, name: &CondName) -> Result<String, Memory> {
        let item = self.item_name(alloc, step, name)?;
        let word = item_word(&step.rule);
        match name.premise {
            Premise::Keep => Ok(format!(in alloc;
                "{} must keep the claim",
                self.mover(alloc, name)?
            )?),
            Premise::Move => {
                let mover = self.mover(alloc, name)?;
                Ok(format!(in alloc;
                    "{mover} must lead from {item} to the goal, to a lower {word}, or stay"
                )?)
            }
            Premise::Help => {
                let helper = self.helper_name(alloc, step, name)?;
                Ok(format!(in alloc; "wherever {item} holds, `{helper}` must be enabled")?)
            }
            Premise::Rank => Ok(format!(in alloc;
                "where {item} holds, its numbers must not be below 0, nor pass its top"
            )?),
            Premise::Level => Ok(format!(in alloc;
                "{item} must imply the goal's formula of that level"
            )?),
            Premise::Start => Ok(String::from_str(alloc, "the claim must hold at the start")?),
            Premise::Implies => {
                Ok(String::from_str(alloc, "what stands behind `by` must imply the claim")?)
            }
            Premise::Target => {
                Ok(String::from_str(alloc, "the terminal node must imply what is to be reached")?)
            }
            Premise::Cover => {
                Ok(format!(in alloc;
                    "where the wait begins, it must be over, or {} must hold that the bound is enough for",
                    some_item(&step.rule)
                )?)
            }
        }
    }

    /// A condition in words: its step, who acts, and what is asked.
    pub(crate) fn words(
        &self,
        alloc: Global,
        step: &Step,
        name: &CondName,
    ) -> Result<String, Memory> {
        let asked = self.asked(alloc, step, name)?;
        Ok(format!(in alloc; "step {}: {asked}", step.name)?)
    }
}
