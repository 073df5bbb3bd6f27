//! Programs that some state begins, as is seen at a glance: where each variable is spoken of once at most, by itself or beside a number,
//! each part can be met for itself, and so all of them together; or a state in which all variables are equal is one. Of other programs
//! the search has to be asked, which is dearer than all else that a warning costs.

use crate::glancing::begins_equally;
use crate::source::{Source, word_of};
use st_memory::Memory;
use std::alloc::Global;

/// Whether a word compares what stands around it.
fn compares(word: &str) -> bool {
    matches!(word, "=" | "!=" | "<" | "<=" | ">" | ">=")
}

/// Whether a word is the name of a variable, where a formula begins with it.
fn is_name(word: &str) -> bool {
    match word.as_bytes().first() {
        Some(first) => first.is_ascii_alphabetic() && word != "true" && word != "false",
        None => false,
    }
}

fn is_number(word: &str) -> bool {
    match word.as_bytes().first() {
        Some(first) => first.is_ascii_digit(),
        None => false,
    }
}

/// The number of the token behind a number, which may have a sign.
fn behind_number(source: &Source, at: usize) -> Option<usize> {
    let digits = if source.word(at) == "-" {
        at.saturating_add(1)
    } else {
        at
    };
    if is_number(source.word(digits)) {
        Some(digits.saturating_add(1))
    } else {
        None
    }
}

/// The number of the token behind what a name is compared with, if it is compared.
fn behind_comparison(source: &Source, at: usize) -> Option<usize> {
    if compares(source.word(at)) {
        behind_number(source, at.saturating_add(1))
    } else {
        Some(at)
    }
}

/// The name of the one variable that a conjunct speaks of, and the number of the token behind the conjunct: `b`, `~b`, or `x` beside a
/// number.
fn conjunct<'a>(source: &Source<'a>, at: usize) -> Option<(&'a str, usize)> {
    let is_negated = source.word(at) == "~";
    let name = at.saturating_add(is_negated as usize);
    let next = name.saturating_add(1);
    let behind = if is_negated {
        next
    } else {
        behind_comparison(source, next)?
    };
    let word = source.word(name);
    if is_name(word) {
        Some((word, behind))
    } else {
        None
    }
}

/// Whether what stands behind a `where` speaks once of each variable, up to its semicolon, and of none of these names, which take its own
/// up.
fn is_plain<'a>(
    source: &Source<'a>,
    from: usize,
    names: &mut Vec<&'a str>,
) -> Result<bool, Memory> {
    let mut at = from;
    for _ in 0..source.tokens.len() {
        let Some((name, behind)) = conjunct(source, at) else {
            return Ok(false);
        };
        if names.iter().any(|other| *other == name) {
            return Ok(false);
        }
        names.push(name)?;
        match source.word(behind) {
            ";" => return Ok(true),
            "/\\" => at = behind.saturating_add(1),
            _ => return Ok(false),
        }
    }
    Ok(false)
}

/// Whether each part that is said of the variables can be met for itself.
fn begins_in_parts(alloc: Global, source: &Source) -> Result<bool, Memory> {
    let mut names = Vec::new(alloc);
    for (number, token) in source.tokens.iter().enumerate() {
        if word_of(token) == "where" && !is_plain(source, number.saturating_add(1), &mut names)? {
            return Ok(false);
        }
    }
    Ok(true)
}

/// Whether it is seen at a glance that some state begins the program, which is read and typed.
pub(crate) fn begins_plainly(alloc: Global, source: &Source) -> Result<bool, Memory> {
    Ok(begins_in_parts(alloc, source)? || begins_equally(alloc, &source.tokens)?)
}
