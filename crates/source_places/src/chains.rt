//! The conjuncts of a formula in its text. A chain of `/\` is one list of conjuncts, and round brackets leave no trace in a
//! formula, so that conjunct k of the formula is the k-th stretch.

use crate::cutting::{End, behind, cut, mark_of, parts, span_of};
use crate::span::Span;
use crate::tokens::tokens_of;
use st_memory::Memory;
use st_reading::Mark;
use st_tokens::Token;
use std::alloc::Global;

/// How many round brackets may stand around a formula: the limit on nesting.
const ROUND: usize = 32;

/// Whether the first token is a `(`.
fn is_opened(tokens: &[Token]) -> bool {
    match tokens.first() {
        Some(first) => matches!(mark_of(first), Some(Mark::Open)),
        None => false,
    }
}

/// Whether a `)` that closes the first token is the last.
fn is_enclosed(tokens: &[Token]) -> bool {
    is_opened(tokens) && cut(behind(tokens), End::Close).1.len() == 1
}

/// The tokens without brackets around all of them, if there are such.
fn inside<'a, 'b>(tokens: &'b [Token<'a>]) -> &'b [Token<'a>] {
    let skipped = usize::from(is_enclosed(tokens));
    let end = tokens.len().saturating_sub(skipped);
    tokens.get(skipped..end).unwrap_or(tokens)
}

/// The tokens without any brackets around all of them.
fn bare<'a, 'b>(tokens: &'b [Token<'a>]) -> &'b [Token<'a>] {
    let mut bare = tokens;
    for _ in 0..ROUND {
        bare = inside(bare);
    }
    bare
}

/// The stretches of the conjuncts of the formula in a stretch of a text, in order; of another formula the whole.
pub fn conjuncts(alloc: Global, text: &[u8], formula: Span) -> Result<Vec<Span>, Memory> {
    let from = text.len().min(formula.from as usize);
    let len = text.len().min(formula.to as usize).saturating_sub(from);
    let tokens = tokens_of(alloc, text.split_at(from).1.split_at(len).0)?;
    let bare = bare(&tokens);
    let mut out = Vec::new(alloc);
    if cut(bare, End::Weaker).1.is_empty() {
        for part in &parts(alloc, bare, End::And)? {
            if let Some(span) = span_of(part) {
                out.push(span.behind(from as u64))?;
            }
        }
    } else {
        out.push(formula)?;
    }
    Ok(out)
}
