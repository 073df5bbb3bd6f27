//! What a text is made of, blanks apart: tokens and comments.

ghost use Rattle.std.specs.Prelude.{◌≡◌, true, false};
ghost use Rattle.text_layouts.specs.Whole.{IsToken, IsWhole, IsWord};

use crate::kind::PieceKind;
use st_tokens::TokenKind;

/// A token or a comment, and how many lines end before it, two at most.
#[derive(Clone, Copy, Debug)]
pub struct Piece<'a> {
    pub kind: PieceKind,
    pub text: &'a [u8],
    pub lines: u8,
    ghost whole: { IsWhole kind text.now },
}

impl Piece<'_> {
    pub fn is(&self, text: &[u8]) -> bool
        ensures { result ≡ true → self.now.text.now ≡ text.now }
    {
        self.text == text
    }

    pub fn is_comment(&self) -> bool
        ensures { result ≡ false → IsToken self.now.kind }
    {
        match self.kind {
            PieceKind::Comment => true,
            PieceKind::Token(_) => false,
        }
    }

    /// Whether it is a name, a keyword or a numeral.
    pub fn is_word(&self) -> bool
        ensures { result ≡ true → IsWord self.now.kind }
    {
        match self.kind {
            PieceKind::Token(TokenKind::Name) => true,
            PieceKind::Token(TokenKind::Keyword) => true,
            PieceKind::Token(TokenKind::Numeral) => true,
            PieceKind::Token(TokenKind::Symbol) => false,
            PieceKind::Comment => false,
        }
    }
}
