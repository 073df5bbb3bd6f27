//! Phrases: texts of formulas, with the operator that binds least in them, so that parentheses stand only where they are needed.

use st_memory::Memory;
use std::alloc::Global;
use step_report::push_text;

/// The operator of a formula that binds least.
#[derive(Clone, Copy, Debug, PartialEq, Eq)]
pub enum Shape {
    Atom,
    Conjunction,
    Disjunction,
    Implication,
}

/// The text of a formula.
#[derive(Drop)]
pub struct Phrase {
    pub text: Vec<u8>,
    pub shape: Shape,
}

/// Appends a phrase in parentheses.
pub(crate) fn push_enclosed(out: &mut Vec<u8>, phrase: &Phrase) -> Result<(), Memory> {
    push_text(out, b"(")?;
    push_text(out, &phrase.text)?;
    push_text(out, b")")
}

/// Appends a phrase as one part of a conjunction of several.
pub(crate) fn push_conjunct(out: &mut Vec<u8>, phrase: &Phrase) -> Result<(), Memory> {
    match phrase.shape {
        Shape::Atom | Shape::Conjunction => push_text(out, &phrase.text),
        Shape::Disjunction | Shape::Implication => push_enclosed(out, phrase),
    }
}

/// The conjunction of phrases; a single one is itself, and none are `true`.
pub(crate) fn conjunction(alloc: Global, mut phrases: Vec<Phrase>) -> Result<Phrase, Memory> {
    if phrases.len() < 2 {
        return match phrases.pop() {
            Some(only) => Ok(only),
            None => atom(alloc, b"true"),
        };
    }
    let mut text = Vec::new(alloc);
    for (number, phrase) in phrases.iter().enumerate() {
        if number > 0 {
            push_text(&mut text, b" /\\ ")?;
        }
        push_conjunct(&mut text, phrase)?;
    }
    Ok(Phrase {
        text,
        shape: Shape::Conjunction,
    })
}

/// That the left phrase implies the right one, neither of them an implication.
pub(crate) fn implication(alloc: Global, left: &Phrase, right: &Phrase) -> Result<Phrase, Memory> {
    let mut text = Vec::from_slice(alloc, &left.text)?;
    push_text(&mut text, b" -> ")?;
    push_text(&mut text, &right.text)?;
    Ok(Phrase {
        text,
        shape: Shape::Implication,
    })
}

/// A phrase that is negated: an atom, or in parentheses.
pub(crate) fn negation(alloc: Global, phrase: &Phrase) -> Result<Phrase, Memory> {
    let mut text = Vec::new(alloc);
    push_text(&mut text, b"~")?;
    match phrase.shape {
        Shape::Atom => push_text(&mut text, &phrase.text)?,
        _ => push_enclosed(&mut text, phrase)?,
    }
    Ok(Phrase {
        text,
        shape: Shape::Atom,
    })
}

/// A text that is no operator's.
pub(crate) fn atom(alloc: Global, text: &[u8]) -> Result<Phrase, Memory> {
    Ok(Phrase {
        text: Vec::from_slice(alloc, text)?,
        shape: Shape::Atom,
    })
}
