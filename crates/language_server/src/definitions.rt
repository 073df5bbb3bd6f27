//! Where names of a program or of a proof are introduced. Texts may have faults, since they are looked at while they are written; so
//! this goes by tokens, and not by trees.

use source_places::Span;
use st_memory::Memory;
use st_tokens::{Token, TokenKind};
use std::alloc::Global;
use text_layouts::{closes, opens};

/// What a name stands for.
#[derive(Clone, Copy, Debug, PartialEq, Eq)]
pub enum Sort {
    Variable,
    Label,
    Process,
    Step,
}

/// A name, and what introduces it.
#[derive(Clone, Copy, Debug)]
pub struct Definition<'a> {
    pub sort: Sort,
    pub name: &'a [u8],
    pub place: Span,
    /// From the first token of the declaration, statement or step to its last.
    pub extent: Span,
}

impl Sort {
    pub fn word(self) -> &'static str {
        match self {
            Sort::Variable => "variable",
            Sort::Label => "label",
            Sort::Process => "process",
            Sort::Step => "step",
        }
    }
}

fn is(token: &Token<'_>, text: &[u8]) -> bool {
    token.text == text
}

fn begins_declaration(token: &Token<'_>) -> bool {
    is(token, b"local") || is(token, b"in") || is(token, b"out")
}

fn begins_step(token: &Token<'_>) -> bool {
    is(token, b"invariant") || is(token, b"waiting") || is(token, b"response")
}

/// Whether a part ends before a token that stands in no bracket of it.
fn ends_part(token: &Token<'_>) -> bool {
    is(token, b";")
        || is(token, b"||")
        || is(token, b"or")
        || is(token, b"else")
        || is(token, b"then")
}

/// The last token of the part that begins with the first of the tokens.
fn last_of_part<'a, 'b>(tokens: &'b [Token<'a>]) -> Option<&'b Token<'a>> {
    let mut depth = 0usize;
    let mut last = None;
    for token in tokens {
        if depth == 0 && (ends_part(token) || closes(token.text)) {
            break;
        }
        if opens(token.text) {
            depth = depth.saturating_add(1);
        } else if closes(token.text) {
            depth = depth.saturating_sub(1);
        }
        last = Some(token);
    }
    last
}

fn extent(tokens: &[Token<'_>]) -> Option<Span> {
    let first = Span::of(tokens.first()?);
    Some(match last_of_part(tokens) {
        Some(last) => first.to(Span::of(last)),
        None => first,
    })
}

/// Where a walk is: in the names of a declaration, and what began it.
#[derive(Clone, Copy)]
struct Walk {
    declares: bool,
    /// The number of the token that began the declaration or the step.
    begun: usize,
}

/// What a name is at this place, by the tokens before it and behind it.
fn sort_of(walk: Walk, before: Option<&Token<'_>>, next: Option<&Token<'_>>) -> Option<Sort> {
    if walk.declares {
        return Some(Sort::Variable);
    }
    let next = next?;
    if is(next, b"::") {
        return Some(Sort::Process);
    }
    if !is(next, b":") {
        return None;
    }
    match before {
        Some(before) if begins_step(before) => Some(Sort::Step),
        _ => Some(Sort::Label),
    }
}

impl Walk {
    fn pass(&mut self, token: &Token<'_>, number: usize) {
        if begins_declaration(token) {
            self.declares = true;
            self.begun = number;
        } else if is(token, b":") || is(token, b";") {
            self.declares = false;
        } else if begins_step(token) {
            self.begun = number;
        }
    }

    /// The number of the token with which the extent of a name begins.
    fn first_of(&self, sort: Sort, number: usize) -> usize {
        match sort {
            Sort::Variable | Sort::Step => self.begun,
            Sort::Label | Sort::Process => number,
        }
    }
}

/// What the tokens introduce, in their order.
pub fn definitions<'a>(alloc: Global, tokens: &[Token<'a>]) -> Result<Vec<Definition<'a>>, Memory> {
    let mut out = Vec::new(alloc);
    let mut walk = Walk {
        declares: false,
        begun: 0,
    };
    let mut before: Option<&Token<'_>> = None;
    for (number, token) in tokens.iter().enumerate() {
        walk.pass(token, number);
        if token.kind == TokenKind::Name
            && let Some(sort) = sort_of(walk, before, tokens.get(number.saturating_add(1)))
        {
            let first = walk.first_of(sort, number).min(tokens.len());
            if let Some(extent) = extent(tokens.split_at(first).1) {
                out.push(Definition {
                    sort,
                    name: token.text,
                    place: Span::of(token),
                    extent,
                })?;
            }
        }
        before = Some(token);
    }
    Ok(out)
}
