//! `%`, which other languages have for a remainder. Here a comment begins there: what stands behind it on its line isn't read, and the
//! fault is found on a later one.

use crate::source::{Source, word_of};
use source_places::Span;
use st_tokens::{Token, TokenKind, Tokens};

/// What is said of such a sign.
pub(crate) const NO_REMAINDER: &str =
    "`%` begins a comment, up to the end of the line: there is no remainder, the language is linear";

/// The bytes in front of the first line feed.
fn line_of(text: &[u8]) -> &[u8] {
    match text.iter().position(|byte| *byte == b'\n') {
        Some(end) => text.split_at(end).0,
        None => text,
    }
}

/// Whether a value may end with a token.
fn ends_value(token: &Token) -> bool {
    matches!(token.kind, TokenKind::Name | TokenKind::Numeral) || token.text == b")".as_slice()
}

fn next_token<'a>(tokens: &mut Tokens<'a>) -> Option<Token<'a>> {
    match tokens.next() {
        Ok(token) => token,
        Err(_) => None,
    }
}

fn is_symbol(token: Option<Token>) -> bool {
    match token {
        Some(token) => token.kind == TokenKind::Symbol,
        None => false,
    }
}

/// Whether a comment begins as a divisor does: with a number, or with a name that no second one follows; a parenthesis may open it.
fn begins_as_divisor(comment: &[u8]) -> bool {
    let mut tokens = Tokens::new(comment);
    let mut first = next_token(&mut tokens);
    if first.is_some_and(|token| token.text == b"(".as_slice()) {
        first = next_token(&mut tokens);
    }
    match first {
        Some(token) => match token.kind {
            TokenKind::Numeral => true,
            TokenKind::Name => is_symbol(next_token(&mut tokens)),
            TokenKind::Keyword | TokenKind::Symbol => false,
        },
        None => false,
    }
}

/// The `%` behind the token of a number, where it seems to be meant for a remainder: a value stands in front of it on its line, and a
/// divisor behind it.
fn remainder_behind(source: &Source, index: usize) -> Option<Span> {
    let token = source.tokens.get(index)?;
    let behind = Span::of(token).to;
    let line = line_of(source.rest(behind));
    let blanks = line
        .iter()
        .position(|byte| *byte != b' ' && *byte != b'\t')?;
    let from = behind.saturating_add(blanks as u64);
    let comment = line.split_at(blanks.saturating_add(1).min(line.len())).1;
    if line.get(blanks) == Some(&b'%') && ends_value(token) && begins_as_divisor(comment) {
        Some(Span {
            from,
            to: from.saturating_add(1),
        })
    } else {
        None
    }
}

/// Such a `%` between a fault and the text before it.
pub(crate) fn remainder_before(source: &Source, place: u64) -> Option<Span> {
    remainder_behind(source, source.index_at(place).checked_sub(1)?)
}

fn is_of_sum(token: &Token) -> bool {
    matches!(token.kind, TokenKind::Name | TokenKind::Numeral)
        || matches!(word_of(token), "+" | "-" | "*" | "(" | ")")
}

/// Such a `%` in the sum that begins at a place.
pub(crate) fn remainder_in_sum(source: &Source, place: u64) -> Option<Span> {
    for (index, token) in source.tokens.iter().enumerate() {
        if place <= token.start {
            let found = remainder_behind(source, index);
            if found.is_some() || !is_of_sum(token) {
                return found;
            }
        }
    }
    None
}
