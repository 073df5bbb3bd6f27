//! How deep a line stands.

use crate::brackets::{Brackets, closes};
use crate::piece::Piece;

/// The word that parts a program from its proof where both stand in one text.
fn parts(piece: &Piece<'_>) -> bool {
    piece.is(b"proof")
}

/// Whether what follows a piece begins anew, and goes on with nothing.
fn ends_part(piece: &Piece<'_>) -> bool {
    parts(piece)
        || piece.is(b";")
        || piece.is(b"[")
        || piece.is(b"(")
        || piece.is(b"{")
        || piece.is(b"<<")
        || piece.is(b"||")
        || piece.is(b"or")
        || piece.is(b"then")
        || piece.is(b"else")
        || piece.is(b"cobegin")
}

/// Whether a piece at the front of a line begins a part of what is around it.
fn begins_part(piece: &Piece<'_>) -> bool {
    parts(piece) || closes(piece.text) || piece.is(b"||") || piece.is(b"or") || piece.is(b"else")
}

/// Whether a line goes on with what the piece before it belongs to.
fn goes_on(before: Option<&Piece<'_>>, first: &Piece<'_>) -> bool {
    match before {
        Some(before) => !ends_part(before) && !begins_part(first),
        None => false,
    }
}

/// How many spaces a line begins with, whose first token is `first` and before which the token `before` stands.
pub fn indentation(brackets: &Brackets, before: Option<&Piece<'_>>, first: &Piece<'_>) -> usize {
    let level = brackets.level();
    let level = if closes(first.text) || first.is(b"else") {
        level.saturating_sub(1)
    } else if goes_on(before, first) {
        level.saturating_add(1)
    } else {
        level
    };
    level.saturating_mul(2)
}
