//! What is written at nodes and edges.

use formula_words::{Vocabulary, formula, sum};
use st_form::Change;
use st_memory::Memory;
use std::alloc::Global;
use std::fmt::Write;
use transition_system::{Fts, Mode};

/// Appends a line to a text that may be empty.
fn push_line(out: &mut String, line: &str) -> Result<(), Memory> {
    if !out.is_empty() {
        out.push_str("\n")?;
    }
    out.push_str(line)?;
    Ok(())
}

/// Appends what a change gives to variables, each in a line of its own.
fn push_change(
    alloc: Global,
    out: &mut String,
    words: &Vocabulary,
    change: &Change,
) -> Result<(), Memory> {
    for (variable, value) in &change.numbers {
        let value = sum(alloc, words, value)?;
        let line = format!(in alloc; "{} := {value}", words.variable(*variable))?;
        push_line(out, &line)?;
    }
    for (variable, value) in &change.truths {
        let value = formula(alloc, words, value)?;
        let line = format!(in alloc; "{} := {value}", words.variable(*variable))?;
        push_line(out, &line)?;
    }
    Ok(())
}

/// The label of a mode: its guard, unless that is true, and what it gives to variables.
pub(crate) fn mode_label(alloc: Global, words: &Vocabulary, mode: &Mode) -> Result<String, Memory> {
    let guard = formula(alloc, words, &mode.guard)?;
    let mut out = String::new(alloc);
    if guard.as_str() != "true" {
        out.push_str(&guard)?;
    }
    push_change(alloc, &mut out, words, &mode.change)?;
    Ok(out)
}

/// The name of a transition by its number.
pub(crate) fn transition_label(
    alloc: Global,
    words: &Vocabulary,
    system: &Fts,
    transition: u32,
) -> Result<String, Memory> {
    match system.transitions.get(transition as usize) {
        Some(transition) => words.transition(alloc, transition.name),
        None => Ok(String::new(alloc)),
    }
}

/// Names of transitions, parted by commas.
pub(crate) fn transitions_label(
    alloc: Global,
    words: &Vocabulary,
    system: &Fts,
    transitions: &[u32],
) -> Result<String, Memory> {
    let mut out = String::new(alloc);
    for transition in transitions {
        if !out.is_empty() {
            out.push_str(", ")?;
        }
        out.push_str(&transition_label(alloc, words, system, *transition)?)?;
    }
    Ok(out)
}

/// The label of an assertion: its number and its formula, and in a line of its own what else is said of it.
pub(crate) fn assertion_label(
    alloc: Global,
    number: u64,
    formula: &str,
    more: &str,
) -> Result<String, Memory> {
    let mut out = String::new(alloc);
    write!(out, "φ{number}: {formula}")?;
    if !more.is_empty() {
        push_line(&mut out, more)?;
    }
    Ok(out)
}
