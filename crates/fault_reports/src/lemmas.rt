//! Names of steps, and of what programs declare.

use crate::source::{Source, word_of};
use st_memory::Memory;
use st_tokens::{Token, TokenKind};
use std::alloc::Global;

/// Whether a keyword begins a step.
fn begins_step(word: &str) -> bool {
    matches!(word, "invariant" | "waiting" | "response")
}

/// The names of the steps of a proof, with their tokens, in order.
pub(crate) fn steps<'a>(alloc: Global, source: &Source<'a>) -> Result<Vec<Token<'a>>, Memory> {
    let mut out = Vec::new(alloc);
    let mut named = false;
    for token in &source.tokens {
        if named && token.kind == TokenKind::Name {
            out.push(*token)?;
        }
        named = begins_step(word_of(token));
    }
    Ok(out)
}

/// The names of the variables that a program declares.
pub(crate) fn declared<'a>(alloc: Global, source: &Source<'a>) -> Result<Vec<&'a str>, Memory> {
    let mut out = Vec::new(alloc);
    let mut declaring = false;
    for token in &source.tokens {
        match word_of(token) {
            "in" | "local" | "out" => declaring = true,
            ":" => declaring = false,
            "," => {}
            name => if declaring {
                out.push(name)?;
            },
        }
    }
    Ok(out)
}

/// The labels of a program: names with a `:` behind them, where no variable is declared.
pub(crate) fn labelled<'a>(alloc: Global, source: &Source<'a>) -> Result<Vec<&'a str>, Memory> {
    let mut out = Vec::new(alloc);
    let mut declaring = false;
    for (index, token) in source.tokens.iter().enumerate() {
        match word_of(token) {
            "in" | "local" | "out" => declaring = true,
            ":" => {
                if !declaring && 0 < index {
                    out.push(source.word(index.saturating_sub(1)))?;
                }
                declaring = false;
            }
            _ => {}
        }
    }
    Ok(out)
}

/// Whether a declared variable is boolean; `None` of a name that isn't declared.
pub(crate) fn is_boolean(source: &Source, name: &str) -> Option<bool> {
    let mut declaring = false;
    let mut named = false;
    for token in &source.tokens {
        match word_of(token) {
            "in" | "local" | "out" => declaring = true,
            ":" => declaring = false,
            "integer" => if named {
                return Some(false);
            },
            "boolean" => if named {
                return Some(true);
            },
            ";" => named = false,
            word => if declaring && word == name {
                named = true;
            },
        }
    }
    None
}
