//! A text with its lines and tokens.

ghost use Rattle.std.specs.Prelude.{◌≡◌, IfOk};

use program_words::spot;
use proof_reports::Spot;
use source_lines::Lines;
use source_places::{Span, token_at, tokens_of};
use st_memory::Memory;
use st_tokens::{Token, TokenFault, Tokens};
use std::alloc::Global;
use std::str;

/// A text and the name of its file.
#[derive(Clone, Copy, Debug)]
pub struct TextFile<'a> {
    pub name: &'a str,
    pub text: &'a [u8],
}

/// A text, its lines, and its tokens up to the first byte that begins none.
#[derive(Drop)]
pub(crate) struct Source<'a> {
    pub file: TextFile<'a>,
    pub lines: Lines<'a>,
    pub tokens: Vec<Token<'a>>,
}

/// The first place at which no token can be read.
pub(crate) fn broken_at(text: &[u8]) -> Option<u64> {
    let mut tokens = Tokens::new(text);
    for _ in 0..text.len() {
        match tokens.next() {
            Ok(Some(_)) => {}
            Ok(None) => return None,
            Err(TokenFault::BadByte(place)) => return Some(place),
            Err(TokenFault::LongNumber(place)) => return Some(place),
        }
    }
    None
}

/// The text of a token; a token is ASCII.
pub(crate) fn word_of<'a>(token: &Token<'a>) -> &'a str {
    str::from_utf8(token.text).unwrap_or("")
}

impl<'a> Source<'a> {
    pub(crate) fn new(alloc: Global, file: TextFile<'a>) -> Result<Source<'a>, Memory>
        ensures { IfOk result (λ s. s.file ≡ file.entry) }
    {
        let lines = Lines::new(alloc, file.text)?;
        let tokens = tokens_of(alloc, file.text)?;
        Ok(Source {
            file,
            lines,
            tokens,
        })
    }

    /// The place as it is shown.
    pub(crate) fn spot(&self, alloc: Global, span: Span, note: &str) -> Result<Spot, Memory>
        ensures { IfOk result (λ s. s.offset ≡ span.from) }
    {
        spot(
            alloc,
            self.file.name,
            self.file.text,
            &self.lines,
            span,
            note,
        )
    }

    /// What stands from a place on.
    pub(crate) fn span_at(&self, place: u64) -> Span
        ensures { result.from ≡ place }
    {
        Span {
            from: place,
            to: token_at(self.file.text, place).to,
        }
    }

    /// The number of the first token from a place on.
    pub(crate) fn index_at(&self, place: u64) -> usize {
        self.tokens
            .as_slice()
            .partition_point(|token: &Token| -> bool { token.start < place })
    }

    /// The token with a number, as text; none is empty.
    pub(crate) fn word(&self, index: usize) -> &'a str {
        match self.tokens.get(index) {
            Some(token) => word_of(token),
            None => "",
        }
    }

    /// The token so many before the place, from 1.
    pub(crate) fn word_before(&self, place: u64, back: usize) -> &'a str {
        match self.index_at(place).checked_sub(back) {
            Some(index) => self.word(index),
            None => "",
        }
    }

    /// The token at a place.
    pub(crate) fn word_at(&self, place: u64) -> &'a str {
        match self.tokens.get(self.index_at(place)) {
            Some(token) => {
                if token.start == place {
                    word_of(token)
                } else {
                    ""
                }
            }
            None => "",
        }
    }

    /// The bytes from a place on.
    pub(crate) fn rest(&self, place: u64) -> &'a [u8] {
        let from = self.file.text.len().min(place as usize);
        self.file.text.split_at(from).1
    }
    /// The bytes of a stretch.
    pub(crate) fn stretch(&self, span: Span) -> &'a [u8] {
        let rest = self.rest(span.from);
        let length = span.to.saturating_sub(span.from) as usize;
        rest.split_at(rest.len().min(length)).0
    }
}
