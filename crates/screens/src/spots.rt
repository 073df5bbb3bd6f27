//! A line of a text with what is meant underlined. Of a long line the part round that is shown.

use crate::screen::{Ink, Screen, breadth};
use proof_reports::Spot;
use st_memory::Memory;

/// How many characters of a line are shown.
const SHOWN: usize = 96;

/// How many characters stand before what is meant, where not the whole line is shown.
const BEFORE: usize = 30;

/// From which character on a line is shown.
fn first_shown(spot: &Spot) -> usize {
    let column = (spot.column as usize).saturating_sub(1);
    if spot.source.chars().count() <= SHOWN || column < SHOWN.saturating_sub(BEFORE) {
        0
    } else {
        column.saturating_sub(BEFORE)
    }
}

/// How many columns the characters take from one on, as many as asked for.
fn stretch(text: &str, from: usize, count: usize) -> usize {
    let mut taken: usize = 0;
    for character in text.chars().skip(from).take(count) {
        taken = taken.saturating_add(breadth(character));
    }
    taken
}

/// How many characters are underlined on the first line.
fn underlined(spot: &Spot, from: usize) -> usize {
    let column = (spot.column as usize).saturating_sub(1);
    let end = if spot.end_line == spot.line {
        (spot.end_column as usize).saturating_sub(1)
    } else {
        spot.source.chars().count()
    };
    end.min(from.saturating_add(SHOWN)).saturating_sub(column)
}

impl Screen {
    /// The number of a line, right of four columns.
    fn number(&mut self, number: &str) -> Result<(), Memory> {
        self.blanks(4usize.saturating_sub(number.len()))?;
        self.ink(Ink::Rule, number)?;
        self.ink(Ink::Rule, " |")?;
        self.text(" ")
    }

    /// The part of a line that is shown.
    fn line(&mut self, source: &str, from: usize) -> Result<(), Memory> {
        if 0 < from {
            self.text("... ")?;
        }
        for character in source.chars().skip(from).take(SHOWN) {
            self.character(character)?;
        }
        if from.saturating_add(SHOWN) < source.chars().count() {
            self.text(" ...")?;
        }
        self.end()
    }

    /// Carets under what is meant, and what is said of it.
    fn carets(&mut self, spot: &Spot, from: usize) -> Result<(), Memory> {
        let column = (spot.column as usize).saturating_sub(1);
        self.ink(Ink::Rule, "     |")?;
        self.text(" ")?;
        if 0 < from {
            self.blanks(4)?;
        }
        self.blanks(stretch(&spot.source, from, column.saturating_sub(from)))?;
        let count = stretch(&spot.source, column, underlined(spot, from)).max(1);
        let mut marked = String::new(self.alloc);
        for _ in 0..count {
            marked.push('^')?;
        }
        self.ink(Ink::Bad, &marked)?;
        if !spot.note.is_empty() {
            self.text(" ")?;
            self.ink(Ink::Bad, &spot.note)?;
        }
        self.end()
    }

    /// The line of a place, and carets.
    pub(crate) fn quotation(&mut self, spot: &Spot) -> Result<(), Memory> {
        let alloc = self.alloc;
        self.gap()?;
        let number = format!(in alloc; "{}", spot.line)?;
        self.number(&number)?;
        let from = first_shown(spot);
        self.line(&spot.source, from)?;
        self.carets(spot, from)
    }

    /// A place: its file, line and column, the line, and carets.
    pub(crate) fn spot(&mut self, spot: &Spot, sign: &str) -> Result<(), Memory> {
        let alloc = self.alloc;
        self.text("  ")?;
        self.ink(Ink::Rule, sign)?;
        let place = format!(in alloc; " {}:{}:{}", spot.file, spot.line, spot.column)?;
        self.text(&place)?;
        self.end()?;
        self.quotation(spot)
    }
}
