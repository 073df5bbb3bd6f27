//! Tokens, and why no token stands at a place.

use thiserror::Error;

/// The kinds of tokens.
#[derive(Clone, Copy, Debug, PartialEq, Eq)]
pub enum TokenKind {
    Name,
    Keyword,
    Numeral,
    Symbol,
}

/// A token: its text is the slice of the source at `start`.
#[derive(Clone, Copy, Debug)]
pub struct Token<'a> {
    pub kind: TokenKind,
    pub text: &'a [u8],
    pub start: u64,
}

/// Why no token stands at a place: byte offsets from 0.
#[derive(Clone, Copy, Debug, PartialEq, Eq, Error)]
pub enum TokenFault {
    /// The byte begins no token.
    #[error("no token begins at {0}")]
    BadByte(u64),
    /// A numeral past 2^30 begins there.
    #[error("the numeral at {0} is past 2^30")]
    LongNumber(u64),
}

/// What stands at the front of a text.
#[derive(Clone, Copy, Debug)]
pub enum Front {
    /// Blanks or a comment, of that many bytes.
    Blank(usize),
    /// A token of that many bytes.
    Whole(TokenKind, usize),
    /// A byte that begins no token.
    Bad,
    /// A numeral past the limit.
    Long,
}
