//! The layout of a step: lines of at most 80 columns, where a conjunct begins a line rather than being broken, and a conjunct that is
//! too long for a line is broken before its operators.

use crate::phrases::{Phrase, push_conjunct};
use st_memory::Memory;
use std::alloc::Global;
use step_report::push_text;

/// The widest line.
const WIDTH: usize = 80;

/// What a line begins with that goes on with a step, and one that goes on with a conjunct.
const INDENT: &[u8] = b"\n  ";

const DEEP_INDENT: &[u8] = b"\n    ";

/// A step that is being written.
#[derive(Drop)]
pub struct Sentence {
    alloc: Global,
    text: Vec<u8>,
    column: usize,
}

/// Whether a formula may be broken before the word.
fn is_operator(word: &[u8]) -> bool {
    matches!(word, b"/\\" | b"\\/" | b"->")
}

impl Sentence {
    /// A step, or the rest of one, that begins behind so many bytes of its line.
    pub fn behind(alloc: Global, column: usize) -> Sentence {
        Sentence {
            alloc,
            text: Vec::new(alloc),
            column,
        }
    }

    /// Appends a text, behind a blank unless it begins a line.
    fn push_on(&mut self, unit: &[u8]) -> Result<(), Memory> {
        if self.column > 0 {
            push_text(&mut self.text, b" ")?;
            self.column = self.column.saturating_add(1);
        }
        push_text(&mut self.text, unit)?;
        self.column = self.column.saturating_add(unit.len());
        Ok(())
    }

    /// Appends a text on a line of its own.
    fn push_line(&mut self, indent: &[u8], unit: &[u8]) -> Result<(), Memory> {
        push_text(&mut self.text, indent)?;
        push_text(&mut self.text, unit)?;
        self.column = indent.len().saturating_sub(1).saturating_add(unit.len());
        Ok(())
    }

    /// Whether so many bytes still fit on the line, behind a blank.
    fn fits(&self, length: usize) -> bool {
        self.column.saturating_add(1).saturating_add(length) <= WIDTH
    }

    /// Appends a piece that isn't broken.
    fn push_piece(&mut self, piece: &[u8]) -> Result<(), Memory> {
        if piece.is_empty() {
            return Ok(());
        }
        if self.fits(piece.len()) {
            self.push_on(piece)
        } else {
            self.push_line(DEEP_INDENT, piece)
        }
    }

    /// Appends a text that is broken before its operators where it is too long for its line.
    fn push_pieces(&mut self, unit: &[u8]) -> Result<(), Memory> {
        let mut piece = Vec::new(self.alloc);
        for word in unit.split(|byte| *byte == b' ') {
            if is_operator(word) {
                self.push_piece(&piece)?;
                piece = Vec::new(self.alloc);
            }
            if !piece.is_empty() {
                push_text(&mut piece, b" ")?;
            }
            push_text(&mut piece, word)?;
        }
        self.push_piece(&piece)
    }

    /// Appends a text: on the line where it fits there, else on the next where it fits there, else in pieces.
    pub fn push_unit(&mut self, unit: &[u8]) -> Result<(), Memory> {
        if self.fits(unit.len()) {
            return self.push_on(unit);
        }
        if unit.len().saturating_add(2) <= WIDTH {
            return self.push_line(INDENT, unit);
        }
        self.push_pieces(unit)
    }

    /// Appends the conjunction of clauses, with a text behind the last one.
    pub fn push_clauses(&mut self, clauses: &[Phrase], tail: &[u8]) -> Result<(), Memory> {
        let last = clauses.len().saturating_sub(1);
        for (number, clause) in clauses.iter().enumerate() {
            let mut unit = Vec::new(self.alloc);
            if number > 0 {
                push_text(&mut unit, b"/\\ ")?;
            }
            if clauses.len() > 1 {
                push_conjunct(&mut unit, clause)?;
            } else {
                push_text(&mut unit, &clause.text)?;
            }
            if number == last {
                push_text(&mut unit, tail)?;
            }
            self.push_unit(&unit)?;
        }
        Ok(())
    }

    /// The text.
    pub fn text(self) -> Vec<u8> {
        self.text
    }
}
