//! Conditions as data for people: each with its name, what it says, and its formulas as texts.

use crate::naming::condition_name;
use crate::selection::{ExportFault, selected};
use crate::sentences::{part_text, sentence};
use formula_words::{Vocabulary, formula};
use posed_conditions::PosedProof;
use serde::Serialize;
use st_form::{CondName, Condition, Consequent, SharedForm, TransName};
use st_memory::Memory;
use std::alloc::Global;
use temporal_goals::Step;
use transition_system::Fts;

/// A condition. What is given holds together; what is shown is that of one of the cases each formula holds.
#[derive(Serialize, Drop)]
pub struct ConditionEntry {
    /// Its number, from 1.
    pub number: usize,
    pub name: String,
    /// What it says, in words.
    pub says: String,
    pub given: Vec<String>,
    pub shown: Vec<Vec<String>>,
}

/// Conditions of a proof.
#[derive(Serialize, Drop)]
pub struct ConditionList {
    pub schema: &'static str,
    /// How many the proof has.
    pub conditions: usize,
    /// Those that were asked for.
    pub listed: Vec<ConditionEntry>,
}

fn formulas(
    alloc: Global,
    words: &Vocabulary,
    forms: &[SharedForm],
) -> Result<Vec<String>, Memory> {
    let mut out = Vec::with_capacity(alloc, forms.len())?;
    for form in forms {
        out.push(formula(alloc, words, form.get())?)?;
    }
    Ok(out)
}

fn cases(
    alloc: Global,
    words: &Vocabulary,
    shown: &Consequent,
) -> Result<Vec<Vec<String>>, Memory> {
    let mut out = Vec::new(alloc);
    match shown {
        Consequent::One(form) => {
            let text = formula(alloc, words, form.get())?;
            out.push(vec![in alloc; text]?)?;
        }
        Consequent::Any(cases) => {
            for case in cases {
                out.push(formulas(alloc, words, case)?)?;
            }
        }
    }
    Ok(out)
}

/// Whether a transition has more modes than one.
fn has_modes(system: &Fts, name: TransName) -> bool {
    match system.find(name) {
        Some(number) => match system.transitions.get(number as usize) {
            Some(transition) => 1 < transition.modes.len(),
            None => false,
        },
        None => false,
    }
}

/// The transition that a condition is of, with its mode where it has several; empty where there is none.
fn taken(
    alloc: Global,
    words: &Vocabulary,
    system: &Fts,
    name: &CondName,
) -> Result<String, Memory> {
    let Some(transition) = name.trans else {
        return Ok(String::new(alloc));
    };
    let text = words.transition(alloc, transition)?;
    if has_modes(system, transition) {
        return Ok(format!(in alloc; "`{text}` in its mode {}", name.mode)?);
    }
    Ok(format!(in alloc; "`{text}`")?)
}

/// What a condition of this step says.
fn says(
    alloc: Global,
    words: &Vocabulary,
    system: &Fts,
    step: Option<&Step>,
    condition: &Condition,
) -> Result<String, Memory> {
    let Some(step) = step else {
        return Ok(String::new(alloc));
    };
    let part = part_text(alloc, step, condition.name.node)?;
    let taken = taken(alloc, words, system, &condition.name)?;
    sentence(alloc, step, condition.name.premise, &part, &taken)
}

/// The condition at a place.
fn entry_of(
    alloc: Global,
    words: &Vocabulary,
    posed: &PosedProof,
    place: usize,
    condition: &Condition,
) -> Result<ConditionEntry, Memory> {
    let steps = posed.proof.script.steps.as_slice();
    let step = steps.get(condition.name.step as usize);
    Ok(ConditionEntry {
        number: place.saturating_add(1),
        name: condition_name(alloc, &posed.source.names, steps, &condition.name)?,
        says: says(alloc, words, &posed.source.system, step, condition)?,
        given: formulas(alloc, words, &condition.given)?,
        shown: cases(alloc, words, &condition.shown)?,
    })
}

/// The conditions of a proof: all, or those that are wanted, as [`selected`] tells them. The words are those of its program.
///
/// # Errors
///
/// `NoSuchCondition` where none is meant, or want of memory.
pub fn condition_list(
    alloc: Global,
    posed: &PosedProof,
    words: &Vocabulary,
    wanted: Option<&str>,
) -> Result<ConditionList, ExportFault> {
    let mut listed = Vec::new(alloc);
    for place in selected(alloc, posed, wanted)? {
        if let Some(condition) = posed.proof.conditions.get(place) {
            listed.push(entry_of(alloc, words, posed, place, condition)?)?;
        }
    }
    Ok(ConditionList {
        schema: "milkhour.conditions/1",
        conditions: posed.proof.conditions.len(),
        listed,
    })
}
