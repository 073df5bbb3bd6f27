//! Kinds of pieces.

use st_tokens::TokenKind;

/// What stands between blanks.
#[derive(Clone, Copy, Debug, PartialEq, Eq)]
pub enum PieceKind {
    Token(TokenKind),
    /// From `%` to the end of the line, without the blanks there.
    Comment,
}
