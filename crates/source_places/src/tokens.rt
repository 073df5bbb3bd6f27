//! All tokens of a text, as `st_tokens` reads them.

use crate::span::Span;
use st_memory::Memory;
use st_tokens::{Token, Tokens};
use std::alloc::Global;

/// The tokens of a text, up to its end or its first byte that begins none.
pub fn tokens_of<'a>(alloc: Global, text: &'a [u8]) -> Result<Vec<Token<'a>>, Memory> {
    let mut tokens = Tokens::new(text);
    let mut out = Vec::new(alloc);
    for _ in 0..text.len() {
        match tokens.next() {
            Ok(Some(token)) => out.push(token)?,
            _ => break,
        }
    }
    Ok(out)
}

/// What stands at a place: the token that has the byte, or else the one character, and at the end of the text nothing.
pub fn token_at(text: &[u8], place: u64) -> Span {
    let mut tokens = Tokens::new(text);
    for _ in 0..text.len() {
        match tokens.next() {
            Ok(Some(token)) => {
                let span = Span::of(&token);
                if span.has(place) {
                    return span;
                }
                if place < span.from {
                    break;
                }
            }
            _ => break,
        }
    }
    character_at(text, place)
}

/// The bytes of UTF-8 that begin at a place.
fn character_at(text: &[u8], place: u64) -> Span {
    let from = text.len().min(place as usize);
    let rest = text.split_at(from).1;
    let more = match rest {
        [] => 0,
        [_, after @ ..] => 1 + after.iter().take_while(|byte| goes_on(**byte)).count(),
    };
    Span {
        from: from as u64,
        to: (from + more) as u64,
    }
}

/// Whether a byte goes on with a character of UTF-8 (RFC 3629, section 3).
fn goes_on(byte: u8) -> bool {
    128 <= byte && byte < 192
}
