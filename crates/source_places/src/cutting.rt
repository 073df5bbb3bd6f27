//! Cutting tokens at marks that stand outside of all brackets. A text without faults is cut where its reader cuts it, since
//! each mark that ends a part stands nowhere else outside of brackets; a text with faults is cut somehow.

ghost use Rattle.std.specs.Prelude.{◌≤◌, length};

use crate::span::Span;
use st_memory::Memory;
use st_reading::{Mark, Sign, sign_of};
use st_tokens::Token;
use std::alloc::Global;

/// What ends a part of a text.
#[derive(Clone, Copy, Debug, PartialEq, Eq)]
pub enum End {
    /// The end of a step or an item, and of a statement inside a block.
    Semicolon,
    Comma,
    /// The end of a statement.
    Statement,
    /// The end of the test of a conditional or loop.
    Test,
    /// What stands between the formulas of a claim.
    Claim,
    /// The end of a claim.
    By,
    /// The end of a rule.
    Using,
    /// The end of an item's formula.
    Formula,
    And,
    /// A sign that binds less than `/\`.
    Weaker,
    /// What opens a list or a drawing.
    List,
    Colon,
    /// Only what closes a bracket that was opened in front.
    Close,
}

pub fn mark_of(token: &Token) -> Option<Mark> {
    match sign_of(token) {
        Sign::Marked(mark) => Some(mark),
        _ => None,
    }
}

fn ends_statement(mark: Mark) -> bool {
    matches!(
        mark,
        Mark::Semicolon | Mark::Bars | Mark::Either | Mark::Else
    )
}

fn ends_formula(mark: Mark) -> bool {
    matches!(
        mark,
        Mark::Helper | Mark::Rank | Mark::Base | Mark::Delay | Mark::Top | Mark::Group
    )
}

/// Whether a mark ends such a part.
fn ends(end: End, mark: Mark) -> bool {
    match end {
        End::Semicolon => matches!(mark, Mark::Semicolon),
        End::Comma => matches!(mark, Mark::Comma),
        End::Statement => ends_statement(mark),
        End::Test => matches!(mark, Mark::Then | Mark::Do) || ends_statement(mark),
        End::Claim => matches!(mark, Mark::Unless | Mark::Wait | Mark::Leads | Mark::Within),
        End::By => matches!(mark, Mark::By | Mark::Using),
        End::Using => matches!(mark, Mark::Using),
        End::Formula => ends_formula(mark),
        End::And => matches!(mark, Mark::And),
        End::Weaker => matches!(mark, Mark::Or | Mark::Implies),
        End::List => matches!(mark, Mark::OpenBlock | Mark::OpenBrace),
        End::Colon => matches!(mark, Mark::Colon),
        End::Close => false,
    }
}

fn opens(mark: Mark) -> bool {
    matches!(
        mark,
        Mark::Open | Mark::OpenBlock | Mark::OpenBrace | Mark::OpenGroup | Mark::If | Mark::Cobegin
    )
}

fn closes(mark: Mark) -> bool {
    matches!(
        mark,
        Mark::Close
            | Mark::CloseBlock
            | Mark::CloseBrace
            | Mark::CloseGroup
            | Mark::Fi
            | Mark::Coend
    )
}

/// How many brackets are open behind a mark; `None` where it closes one that was opened in front of all these tokens.
fn depth_behind(depth: usize, mark: Mark) -> Option<usize> {
    if opens(mark) {
        Some(depth.saturating_add(1))
    } else if closes(mark) {
        depth.checked_sub(1)
    } else {
        Some(depth)
    }
}

/// How many tokens stand before the first that ends the part or closes what was opened in front.
pub fn len_until(tokens: &[Token], end: End) -> usize
    ensures { result ≤ length tokens.now }
{
    let mut depth = 0;
    for (index, token) in tokens.iter().enumerate() {
        if let Some(mark) = mark_of(token) {
            if depth == 0 && ends(end, mark) {
                return index;
            }
            match depth_behind(depth, mark) {
                Some(deeper) => depth = deeper,
                None => return index,
            }
        }
    }
    tokens.len()
}

/// The tokens before the end of a part, and those from it on.
pub fn cut<'a, 'b>(tokens: &'b [Token<'a>], end: End) -> (&'b [Token<'a>], &'b [Token<'a>]) {
    tokens.split_at(len_until(tokens, end))
}

/// The tokens behind the first.
pub fn behind<'a, 'b>(tokens: &'b [Token<'a>]) -> &'b [Token<'a>] {
    match tokens {
        [] => tokens,
        [_, rest @ ..] => rest,
    }
}

/// The parts between the ends of parts, without those that have no token.
pub fn parts<'a, 'b>(
    alloc: Global,
    tokens: &'b [Token<'a>],
    end: End,
) -> Result<Vec<&'b [Token<'a>]>, Memory> {
    let mut out = Vec::new(alloc);
    let mut rest = tokens;
    for _ in 0..tokens.len() {
        let (part, more) = cut(rest, end);
        if !part.is_empty() {
            out.push(part)?;
        }
        rest = behind(more);
    }
    Ok(out)
}

/// The stretch of these tokens; none has none.
pub fn span_of(tokens: &[Token]) -> Option<Span> {
    match tokens {
        [] => None,
        [first, rest @ ..] => {
            let whole = Span::of(first);
            Some(match rest.last() {
                Some(last) => whole.to(Span::of(last)),
                None => whole,
            })
        }
    }
}
