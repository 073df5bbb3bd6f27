//! Where a line that is too long is broken.
//!
//! Of the places where it may be, the last one that leaves what is before it within the width, of those that are least deep in
//! brackets and bind least: behind a semicolon rather than before a word of a rule, before that rather than before a connective
//! (after D. C. Oppen, *Prettyprinting*, 1980, who breaks the outermost group that doesn't fit).

use crate::brackets::{closes, opens};
use crate::piece::Piece;
use crate::spacing::is_spaced;

/// How wide a line may be, in bytes.
const WIDTH: usize = 120;

fn is_rule_word(piece: &Piece<'_>) -> bool {
    piece.is(b"where")
        || piece.is(b"leads")
        || piece.is(b"within")
        || piece.is(b"wait")
        || piece.is(b"by")
        || piece.is(b"using")
}

/// How a line may be broken between two pieces: the less, the rather. `None`: it may not.
fn strength(piece: &Piece<'_>, next: &Piece<'_>) -> Option<usize> {
    if closes(next.text) || next.is_comment() {
        None
    } else if piece.is(b";") || next.is(b"||") || next.is(b"or") {
        Some(0)
    } else if is_rule_word(next) || piece.is(b"do") {
        Some(1)
    } else if next.is(b"->") || next.is(b"==>") {
        Some(2)
    } else if next.is(b"\\/") {
        Some(3)
    } else if next.is(b"/\\") {
        Some(4)
    } else {
        None
    }
}

/// How deep what follows a piece is, where the piece is so deep.
fn depth_behind(depth: usize, piece: &Piece<'_>) -> usize {
    if opens(piece.text) {
        depth.saturating_add(1)
    } else if closes(piece.text) {
        depth.saturating_sub(1)
    } else {
        depth
    }
}

/// A place where a line may be broken: before how many of its pieces it is, and how badly it is there.
#[derive(Clone, Copy)]
struct Place {
    pieces: usize,
    badness: usize,
}

/// The better of two places, of which `next` comes later.
fn better(best: Option<Place>, next: Place) -> Place {
    match best {
        Some(best) if best.badness < next.badness => best,
        Some(_) | None => next,
    }
}

/// How wide a piece is behind another, with the space between them.
fn width_behind(before: Option<&Piece<'_>>, last: &Piece<'_>, piece: &Piece<'_>) -> usize {
    piece
        .text
        .len()
        .saturating_add(usize::from(is_spaced(before, last, piece)))
}

/// How many of the pieces stand in one line that begins with so many spaces. The line may be too long where no place is before
/// the width.
pub fn pieces_of_line(indentation: usize, pieces: &[Piece<'_>]) -> usize {
    let mut width = indentation;
    // So deep that a closing bracket takes nothing away that is needed.
    let mut depth = pieces.len();
    let mut best: Option<Place> = None;
    let mut before: Option<&Piece<'_>> = None;
    let mut last: Option<&Piece<'_>> = None;
    let mut passed = 0usize;
    for piece in pieces {
        if piece.is_comment() {
            break;
        }
        if let Some(last) = last {
            if let Some(strength) = strength(last, piece) {
                let badness = depth.saturating_mul(8).saturating_add(strength);
                best = Some(better(
                    best,
                    Place {
                        pieces: passed,
                        badness,
                    },
                ));
            }
            width = width.saturating_add(width_behind(before, last, piece));
        } else {
            width = width.saturating_add(piece.text.len());
        }
        if WIDTH < width
            && let Some(best) = best
        {
            return best.pieces;
        }
        depth = depth_behind(depth, piece);
        before = last;
        last = Some(piece);
        passed = passed.saturating_add(1);
    }
    pieces.len()
}
