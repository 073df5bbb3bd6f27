//! Claims that some state falsifies, as is seen at a glance: a few states are tried, in which each process stands at a label that the claim
//! names, or at its end. Of other claims the search has to be asked, which is dearer than all else that a warning costs.

use crate::computing::computed;
use crate::labels::{Label, Stand};
use crate::source::word_of;
use crate::trials::{Numbers, Trial, Value, word_at};
use st_memory::Memory;
use st_tokens::Token;
use std::alloc::Global;

/// The most tokens of a claim that is looked at, since each name is looked for among them.
const MOST: usize = 400;

/// Where the processes stand in a state that is tried: at their ends, or each at the first or at the last of its labels that a claim
/// names.
#[derive(Clone, Copy, PartialEq, Eq)]
enum Places {
    Ends,
    First,
    Last,
}

const NUMBERS: [Numbers; 4] = [
    Numbers::All(-1),
    Numbers::Distinct,
    Numbers::All(0),
    Numbers::All(3),
];

const PLACES: [Places; 3] = [Places::First, Places::Last, Places::Ends];

/// The labels that are held, each with its process.
type Held<'b> = Vec<(usize, &'b str)>;

/// Holds a label of a claim too, where a state that is tried has it. Its process may stand at one that the claim named before.
fn hold<'b>(
    out: &mut Held<'b>,
    name: &'b str,
    label: &Label<'b>,
    places: Places,
) -> Result<(), Memory> {
    let is_end = label.stand == Stand::End;
    if label.stand == Stand::Child || places == Places::Ends && !is_end {
        return Ok(());
    }
    match out
        .iter_mut()
        .find(|(process, _)| *process == label.process)
    {
        None => out.push((label.process, name))?,
        Some(slot) if places == Places::Last => slot.1 = name,
        Some(_) => {}
    }
    Ok(())
}

/// The labels that are held in a state that is tried, in which no child is active; `None` where a label isn't the program's.
fn held<'b>(
    alloc: Global,
    tokens: &'b [Token<'b>],
    labels: &[Label<'b>],
    places: Places,
) -> Result<Option<Vec<&'b str>>, Memory> {
    let mut out = Vec::new(alloc);
    for at in 1..tokens.len() {
        if word_at(tokens, at.saturating_sub(1)) != "at" {
            continue;
        }
        let name = word_at(tokens, at);
        let Some(label) = labels.iter().find(|label| label.name == name) else {
            return Ok(None);
        };
        hold(&mut out, name, label, places)?;
    }
    Ok(Some(names_of(alloc, &out)?))
}

fn names_of<'b>(alloc: Global, held: &[(usize, &'b str)]) -> Result<Vec<&'b str>, Memory> {
    let mut out = Vec::with_capacity(alloc, held.len())?;
    for (_, name) in held {
        out.push(*name)?;
    }
    Ok(out)
}

/// Whether one of the states with these labels falsifies a claim.
fn falls_at<'t, 'h>(
    alloc: Global,
    tokens: &'t [Token<'t>],
    held: &'h [&'t str],
) -> Result<bool, Memory> {
    for numbers in NUMBERS {
        for truth in [true, false] {
            let trial = Trial {
                tokens,
                held,
                numbers,
                truth,
            };
            let found = computed(alloc, &trial)?;
            match found {
                Some(Value::Truth(false)) => return Ok(true),
                Some(Value::Truth(true)) => {}
                _ => return Ok(false),
            }
        }
    }
    Ok(false)
}

/// Whether it is seen at a glance that some state falsifies a formula over a program with these labels.
pub(crate) fn falls_plainly<'b>(
    alloc: Global,
    tokens: &'b [Token<'b>],
    labels: &[Label<'b>],
) -> Result<bool, Memory> {
    if MOST < tokens.len() {
        return Ok(false);
    }
    for places in PLACES {
        let Some(held) = held(alloc, tokens, labels, places)? else {
            return Ok(false);
        };
        if falls_at(alloc, tokens, &held)? {
            return Ok(true);
        }
    }
    Ok(false)
}

/// The formulas behind the words `where` of a program.
fn starts<'b>(alloc: Global, tokens: &'b [Token<'b>]) -> Result<Vec<&'b [Token<'b>]>, Memory> {
    let mut out = Vec::new(alloc);
    for (at, token) in tokens.iter().enumerate() {
        if word_of(token) == "where" {
            let behind = tokens.split_at(at.saturating_add(1)).1;
            let end = behind.iter().position(|token| word_of(token) == ";");
            out.push(behind.split_at(end.unwrap_or(0)).0)?;
        }
    }
    Ok(out)
}

/// Whether a state with these numbers and truth values in all variables satisfies all formulas.
fn satisfies<'t>(
    alloc: Global,
    formulas: &[&'t [Token<'t>]],
    numbers: Numbers,
    truth: bool,
) -> Result<bool, Memory> {
    for formula in formulas {
        let formula: &'t [Token<'t>] = *formula;
        let trial = Trial {
            tokens: formula,
            held: &[],
            numbers,
            truth,
        };
        let found = computed(alloc, &trial)?;
        if !matches!(found, Some(Value::Truth(true))) {
            return Ok(false);
        }
    }
    Ok(true)
}

/// Whether it is seen at a glance that a state in which all variables of a kind are equal begins the program of these tokens.
pub(crate) fn begins_equally<'t>(alloc: Global, tokens: &'t [Token<'t>]) -> Result<bool, Memory> {
    let formulas = starts(alloc, tokens)?;
    for number in [0, 1, 3] {
        for truth in [false, true] {
            if satisfies(alloc, &formulas, Numbers::All(number), truth)? {
                return Ok(true);
            }
        }
    }
    Ok(false)
}
