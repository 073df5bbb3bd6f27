//! The lines of a text: each line that stood there, broken where it is too long.

ghost use Rattle.std.specs.Prelude.{◌≤◌, ◌<◌, length, take, IfOk, MatchResult, OnOk, None};
ghost use Rattle.text_layouts.specs.Written.{Writes};

use crate::brackets::Brackets;
use crate::line::indentation;
use crate::lines::pieces_of_line;
use crate::piece::Piece;
use crate::writing::{push_empty_line, push_line};
use st_memory::Memory;
use std::alloc::Global;

/// What is behind us.
#[derive(Drop)]
struct Behind<'a> {
    brackets: Brackets,
    /// The last token, comments apart.
    token: Option<Piece<'a>>,
    /// How many lines are written.
    lines: usize,
}

/// How many pieces stood in the line that begins with the first.
fn count_line(pieces: &[Piece<'_>]) -> usize {
    let mut count = 0usize;
    let mut ended = false;
    for piece in pieces {
        if ended || (0 < count && 0 < piece.lines) {
            break;
        }
        ended = piece.is_comment();
        count = count.saturating_add(1);
    }
    count
}

impl<'a> Behind<'a> {
    fn pass(&mut self, pieces: &[Piece<'a>]) -> Result<(), Memory> {
        for piece in pieces {
            self.brackets.pass(piece, self.lines)?;
            if !piece.is_comment() {
                self.token = Some(*piece);
            }
        }
        self.lines = self.lines.saturating_add(1);
        Ok(())
    }

    /// A comment stands as deep as a part that begins there, and anything else as what it is.
    fn indentation(&self, first: &Piece<'_>) -> usize {
        if first.is_comment() {
            self.brackets.level().saturating_mul(2)
        } else {
            indentation(&self.brackets, self.token.as_ref(), first)
        }
    }

    /// How many of the pieces, of which `first` is the first, stand in one line: at least one.
    fn count(&self, first: &Piece<'_>, pieces: &[Piece<'a>]) -> usize
        ensures { 0 < result }
    {
        let stood = pieces.split_at(count_line(pieces).min(pieces.len())).0;
        pieces_of_line(self.indentation(first), stood).max(1)
    }

    /// Appends the first line of the pieces, and says how many of them it took.
    fn push(&mut self, out: &mut Vec<u8>, pieces: &[Piece<'a>]) -> Result<usize, Memory>
        ensures some { IfOk result (λ n. 0 < length pieces.now → 0 < n) }
        ensures within { IfOk result (λ n. n ≤ length pieces.now) }
        ensures written { IfOk result (λ n. Writes out.old.items out.new.items (take n pieces.now) None) }
    {
        let Some(first) = pieces.first() else {
            return Ok(0);
        };
        // One line is left empty where some were, but for the head of the text.
        let is_parted = 1 < first.lines && 0 < self.lines;
        let line = pieces
            .split_at(self.count(first, pieces).min(pieces.len()))
            .0;
        push_empty_line(out, is_parted)?;
        push_line(out, self.indentation(first), line)?;
        self.pass(line)?;
        Ok(line.len())
    }
}

/// Appends the lines of the pieces.
pub fn push_lines(alloc: Global, out: &mut Vec<u8>, pieces: &[Piece<'_>]) -> Result<(), Memory>
    ensures { OnOk result (Writes out.old.items out.new.items pieces.now None) }
{
    let mut behind = Behind {
        brackets: Brackets::new(alloc),
        token: None,
        lines: 0,
    };
    let mut passed = 0usize;
    while passed < pieces.len() {
        let rest = pieces.split_at(passed).1;
        passed += behind.push(out, rest)?;
    }
    Ok(())
}
