//! Where a space stands between two pieces of a line.

ghost use Rattle.std.specs.Prelude.{◌≡◌, true, false, codes};
ghost use Rattle.text_layouts.specs.Touching.{is_break, is_free};
ghost use Rattle.text_layouts.specs.Whole.{IsToken};
ghost use Rattle.text_layouts.specs.Written.{AreApart, BeginsOperand};

use crate::kind::PieceKind;
use crate::piece::Piece;
use st_tokens::TokenKind;

/// Whether an operand may end with the piece.
fn ends_operand(piece: &Piece<'_>) -> bool {
    match piece.kind {
        PieceKind::Token(TokenKind::Symbol) => piece.is(b")"),
        PieceKind::Token(_) => !is_operator_word(piece.text),
        PieceKind::Comment => false,
    }
}

/// Keywords behind which a sum may begin.
fn is_operator_word(text: &[u8]) -> bool {
    text == b"where".as_slice()
        || text == b"await".as_slice()
        || text == b"if".as_slice()
        || text == b"while".as_slice()
        || text == b"within".as_slice()
        || text == b"rank".as_slice()
        || text == b"base".as_slice()
        || text == b"delay".as_slice()
        || text == b"top".as_slice()
        || text == b"leads".as_slice()
        || text == b"by".as_slice()
        || text == b"wait".as_slice()
}

/// Whether a sign stands before its operand: a `-` behind which none has ended.
fn is_sign(before: Option<&Piece<'_>>, piece: &Piece<'_>) -> bool
    ensures { result ≡ true → piece.now.text.now ≡ codes "-" }
{
    piece.is(b"-")
        && match before {
            Some(before) => !ends_operand(before),
            None => true,
        }
}

/// Whether an operand may begin with the piece.
fn begins_operand(piece: &Piece<'_>) -> bool
    ensures { result ≡ true → BeginsOperand piece.now }
{
    piece.is_word() || piece.is(b"(")
}

/// A symbol that begins no longer one.
fn is_free(token: &[u8]) -> bool
    ensures { result ≡ is_free token.now }
{
    match token {
        [byte] => *byte == b'(' || *byte == b'~' || *byte == b'*' || *byte == b'.',
        _ => false,
    }
}

/// A symbol that goes on with no token before it.
fn is_break(token: &[u8]) -> bool
    ensures { result ≡ is_break token.now }
{
    match token {
        [byte] => {
            *byte == b',' || *byte == b';' || *byte == b')' || *byte == b'.' || *byte == b'*'
        }
        _ => false,
    }
}

/// Whether what follows a piece stands close to it.
#[tactic(auto, using(crate::proofs::Apart::spacing_rules))]
fn holds_next(before: Option<&Piece<'_>>, piece: &Piece<'_>, next: &Piece<'_>) -> bool
    ensures { result ≡ true → AreApart piece.now next.now }
{
    is_free(piece.text) || (is_sign(before, piece) && begins_operand(next))
}

/// Whether a piece stands close to what is before it.
#[tactic(auto, using(crate::proofs::Apart::spacing_rules))]
fn is_held(piece: &Piece<'_>, next: &Piece<'_>) -> bool
    ensures { result ≡ true → IsToken piece.now.kind → AreApart piece.now next.now }
{
    is_break(next.text) || (next.is(b":") && piece.is_word())
}

/// Whether a space stands between a piece and the next, where `before` stands before both.
pub fn is_spaced(before: Option<&Piece<'_>>, piece: &Piece<'_>, next: &Piece<'_>) -> bool
    ensures { result ≡ false → IsToken piece.now.kind → AreApart piece.now next.now }
{
    next.is_comment() || !(holds_next(before, piece, next) || is_held(piece, next))
}
