//! Formulas as people write them.

use crate::comparisons::{equation, row};
use crate::phrases::{Bond, Phrase, constant, implied, joined, signed};
use crate::vocabulary::Vocabulary;
use st_form::Form;
use st_memory::Memory;
use std::alloc::Global;

/// A formula by the grammar of proof texts. It is true exactly where the formula is, and shorter where constants fold away.
pub fn formula(alloc: Global, words: &Vocabulary, form: &Form) -> Result<String, Memory> {
    Ok(phrase(alloc, words, form, true)?.text)
}

fn variable(alloc: Global, words: &Vocabulary, variable: u32) -> Result<Phrase, Memory> {
    Ok(Phrase {
        text: String::from_str(alloc, words.variable(variable))?,
        bond: Bond::Atom,
    })
}

fn location(alloc: Global, words: &Vocabulary, location: u32) -> Result<Phrase, Memory> {
    let mut text = String::from_str(alloc, "at ")?;
    text.push_str(words.location(location))?;
    Ok(Phrase {
        text,
        bond: Bond::Atom,
    })
}

/// A formula, or its negation where it isn't wanted.
#[cycle(phrase)]
fn phrase(alloc: Global, words: &Vocabulary, form: &Form, wanted: bool) -> Result<Phrase, Memory> {
    match form {
        Form::True => constant(alloc, wanted),
        Form::False => constant(alloc, !wanted),
        Form::Row(sum) => row(alloc, words, sum, wanted),
        Form::Equal(sum) => equation(alloc, words, sum, wanted),
        Form::BoolVar(v) => signed(alloc, variable(alloc, words, *v)?, wanted),
        Form::At(l) => signed(alloc, location(alloc, words, *l)?, wanted),
        Form::Not(inner) => phrase(alloc, words, inner, !wanted),
        Form::And(parts) => signed(alloc, chain(alloc, words, parts, Bond::And)?, wanted),
        Form::Or(parts) => signed(alloc, disjunction(alloc, words, parts)?, wanted),
    }
}

/// A conjunction or a disjunction.
#[cycle(phrase)]
fn chain(alloc: Global, words: &Vocabulary, parts: &[Form], kind: Bond) -> Result<Phrase, Memory> {
    let mut whole = constant(alloc, kind == Bond::And)?;
    for part in parts {
        whole = joined(whole, phrase(alloc, words, part, true)?, kind)?;
    }
    Ok(whole)
}

/// A disjunction; of two parts the first of which is a negation, an implication.
#[cycle(phrase)]
fn disjunction(alloc: Global, words: &Vocabulary, parts: &[Form]) -> Result<Phrase, Memory> {
    match parts {
        [first, second] => {
            if !matches!(first, Form::Not(_)) {
                return chain(alloc, words, parts, Bond::Or);
            }
            let premise = phrase(alloc, words, first, false)?;
            let conclusion = phrase(alloc, words, second, true)?;
            implied(alloc, premise, conclusion)
        }
        _ => chain(alloc, words, parts, Bond::Or),
    }
}
