//! Where the parts of a proof's steps stand. The grammar of proofs has one keyword or sign in front of each part, which
//! stands nowhere else outside of brackets.

use crate::cutting::{End, behind, cut, mark_of, parts, span_of};
use crate::span::Span;
use crate::tokens::tokens_of;
use st_memory::Memory;
use st_reading::Mark;
use st_tokens::Token;
use std::alloc::Global;

/// Where an item of a rule's list stands, or a line of a drawing.
#[derive(Clone, Copy, Debug)]
pub struct ItemPlaces {
    pub whole: Span,
    /// Its formula; an edge has none.
    pub formula: Option<Span>,
}

/// Where a step and its parts stand.
#[derive(Drop)]
pub struct StepPlaces {
    /// From its keyword to its `;`.
    pub whole: Span,
    pub name: Span,
    /// The formulas of its claim in text order: of an invariance one; of a waiting-for the one in front of `==>` and each
    /// level, the highest first; of a response both formulas, and then the bound.
    pub claim: Vec<Span>,
    /// What stands behind `by`.
    pub by: Option<Span>,
    /// The items of the rule's list, the lines of its drawing, or the formulas of its levels.
    pub items: Vec<ItemPlaces>,
    /// The names behind `using`.
    pub using: Vec<Span>,
}

/// The stretches of the parts that have tokens.
fn spans(alloc: Global, parts: &[&[Token]]) -> Result<Vec<Span>, Memory> {
    let mut out = Vec::new(alloc);
    for part in parts {
        if let Some(span) = span_of(part) {
            out.push(span)?;
        }
    }
    Ok(out)
}

/// What stands between the first `[` or `{` outside of round brackets and what closes it.
fn listed<'a, 'b>(tokens: &'b [Token<'a>]) -> Option<&'b [Token<'a>]> {
    let (_, list) = cut(tokens, End::List);
    match list {
        [] => None,
        [_, inner @ ..] => Some(cut(inner, End::Close).0),
    }
}

/// The tokens of an item's formula.
fn formula<'a, 'b>(item: &'b [Token<'a>]) -> &'b [Token<'a>] {
    let (_, drawn) = cut(item, End::Colon);
    let formula = if drawn.is_empty() {
        item
    } else {
        behind(drawn)
    };
    cut(formula, End::Formula).0
}

/// Whether an item is an edge of a drawing.
fn is_edge(item: &[Token]) -> bool {
    match item.first() {
        Some(first) => matches!(mark_of(first), Some(Mark::Edge)),
        None => false,
    }
}

fn items_of(alloc: Global, items: &[&[Token]]) -> Result<Vec<ItemPlaces>, Memory> {
    let mut out = Vec::new(alloc);
    for item in items {
        if let Some(whole) = span_of(item) {
            let formula = if is_edge(item) {
                None
            } else {
                span_of(formula(item))
            };
            out.push(ItemPlaces { whole, formula })?;
        }
    }
    Ok(out)
}

/// The items of a rule: those of its list, the one of `just`, or the formulas of levels.
fn items(alloc: Global, rule: &[Token]) -> Result<Vec<ItemPlaces>, Memory> {
    if let Some(list) = listed(rule) {
        return items_of(alloc, &parts(alloc, list, End::Semicolon)?);
    }
    match rule.first().and_then(mark_of) {
        Some(Mark::Just) => items_of(alloc, &parts(alloc, behind(rule), End::Semicolon)?),
        _ => items_of(alloc, &parts(alloc, rule, End::Comma)?),
    }
}

/// Where a step with these tokens stands, its `;` among them; `None` where it has no name or claim.
fn step(alloc: Global, tokens: &[Token]) -> Result<Option<StepPlaces>, Memory> {
    let (Some(whole), [_, name, _, rest @ ..]) = (span_of(tokens), tokens) else {
        return Ok(None);
    };
    let (claim, rule) = cut(rest, End::By);
    let (rule, using) = cut(rule, End::Using);
    let by = behind(rule);
    Ok(Some(StepPlaces {
        whole,
        name: Span::of(name),
        claim: spans(alloc, &parts(alloc, claim, End::Claim)?)?,
        by: span_of(by),
        items: items(alloc, by)?,
        using: spans(alloc, &parts(alloc, behind(using), End::Comma)?)?,
    }))
}

/// Where each step of a proof stands. A text that is refused has those that its tokens show.
pub fn step_places(alloc: Global, text: &[u8]) -> Result<Vec<StepPlaces>, Memory> {
    let tokens = tokens_of(alloc, text)?;
    let mut out = Vec::new(alloc);
    for part in &parts(alloc, &tokens, End::Semicolon)? {
        if let Some(step) = step(alloc, part)? {
            out.push(step)?;
        }
    }
    Ok(out)
}
