//! Pieces of formulas, and how they are joined: parentheses stand only where a reader of the grammar needs them, or where `/\`
//! stands beside `\/`.

use st_memory::Memory;
use std::alloc::Global;

/// How tightly a text holds together.
#[derive(Clone, Copy, Debug, PartialEq, Eq)]
pub(crate) enum Bond {
    True,
    False,
    Atom,
    Comparison,
    And,
    Or,
    Implication,
}

/// A text of a formula.
#[derive(Drop)]
pub(crate) struct Phrase {
    pub(crate) text: String,
    pub(crate) bond: Bond,
}

pub(crate) fn constant(alloc: Global, truth: bool) -> Result<Phrase, Memory> {
    let (text, bond) = if truth {
        ("true", Bond::True)
    } else {
        ("false", Bond::False)
    };
    Ok(Phrase {
        text: String::from_str(alloc, text)?,
        bond,
    })
}

/// Appends a text in parentheses, or bare.
fn push_wrapped(out: &mut String, phrase: &Phrase, wrapped: bool) -> Result<(), Memory> {
    if wrapped {
        out.push_str("(")?;
    }
    out.push_str(phrase.text.as_str())?;
    if wrapped {
        out.push_str(")")?;
    }
    Ok(())
}

/// A phrase, or its negation where it isn't wanted.
pub(crate) fn signed(alloc: Global, phrase: Phrase, wanted: bool) -> Result<Phrase, Memory> {
    if wanted {
        return Ok(phrase);
    }
    match phrase.bond {
        Bond::True => constant(alloc, false),
        Bond::False => constant(alloc, true),
        Bond::Atom | Bond::Comparison | Bond::And | Bond::Or | Bond::Implication => {
            negation(alloc, &phrase)
        }
    }
}

fn negation(alloc: Global, phrase: &Phrase) -> Result<Phrase, Memory> {
    let mut text = String::from_str(alloc, "~")?;
    push_wrapped(&mut text, phrase, phrase.bond != Bond::Atom)?;
    Ok(Phrase {
        text,
        bond: Bond::Atom,
    })
}

/// Whether a part of a conjunction or disjunction stands in parentheses: one of the other kind, and an implication.
fn stands_apart(part: Bond, whole: Bond) -> bool {
    match part {
        Bond::And => whole != Bond::And,
        Bond::Or => whole != Bond::Or,
        Bond::Implication => true,
        Bond::True | Bond::False | Bond::Atom | Bond::Comparison => false,
    }
}

/// Adds a part to a conjunction or a disjunction: what decides the whole replaces it, and what says nothing is left out.
pub(crate) fn joined(whole: Phrase, part: Phrase, kind: Bond) -> Result<Phrase, Memory> {
    let (neutral, decisive, sign) = match kind {
        Bond::And => (Bond::True, Bond::False, " /\\ "),
        _ => (Bond::False, Bond::True, " \\/ "),
    };
    if whole.bond == decisive || part.bond == neutral {
        return Ok(whole);
    }
    if whole.bond == neutral || part.bond == decisive {
        return Ok(part);
    }
    let mut text = whole.text;
    if stands_apart(whole.bond, kind) {
        text.insert_str(0, "(")?;
        text.push_str(")")?;
    }
    text.push_str(sign)?;
    push_wrapped(&mut text, &part, stands_apart(part.bond, kind))?;
    Ok(Phrase { text, bond: kind })
}

/// An implication, folded where one of its sides is a constant.
pub(crate) fn implied(
    alloc: Global,
    premise: Phrase,
    conclusion: Phrase,
) -> Result<Phrase, Memory> {
    if premise.bond == Bond::True || conclusion.bond == Bond::True {
        return Ok(conclusion);
    }
    if premise.bond == Bond::False {
        return constant(alloc, true);
    }
    if conclusion.bond == Bond::False {
        return negation(alloc, &premise);
    }
    let mut text = String::new(alloc);
    push_wrapped(&mut text, &premise, premise.bond == Bond::Implication)?;
    text.push_str(" -> ")?;
    text.push_str(conclusion.text.as_str())?;
    Ok(Phrase {
        text,
        bond: Bond::Implication,
    })
}
