//! What is open at a place: brackets, and the words that enclose statements as brackets do.
//!
//! Brackets that are opened in one line count once for the lines that they enclose, so that `P :: [ l0: loop forever do [` puts its
//! body one level deeper and not two.

use crate::piece::Piece;
use st_memory::Memory;
use std::alloc::Global;

/// A bracket that is open.
#[derive(Clone, Copy, Debug)]
struct Bracket {
    /// The line that it was opened in.
    line: usize,
    /// How deep the lines stand that it encloses.
    level: usize,
}

/// The brackets that are open, from the outermost.
#[derive(Drop)]
pub struct Brackets {
    open: Vec<Bracket>,
}

/// Whether the token, by its bytes, opens a bracket, or begins what a word closes.
pub fn opens(token: &[u8]) -> bool {
    token == b"[".as_slice()
        || token == b"(".as_slice()
        || token == b"{".as_slice()
        || token == b"<<".as_slice()
        || token == b"if".as_slice()
        || token == b"cobegin".as_slice()
}

/// Whether the token, by its bytes, closes what one that [`opens`] has opened.
pub fn closes(token: &[u8]) -> bool {
    token == b"]".as_slice()
        || token == b")".as_slice()
        || token == b"}".as_slice()
        || token == b">>".as_slice()
        || token == b"fi".as_slice()
        || token == b"coend".as_slice()
}

impl Brackets {
    pub fn new(alloc: Global) -> Brackets {
        Brackets {
            open: Vec::new(alloc),
        }
    }

    /// How deep a line stands that begins here.
    pub fn level(&self) -> usize {
        match self.open.last() {
            Some(bracket) => bracket.level,
            None => 0,
        }
    }

    /// How deep what is opened in a line stands.
    fn level_inside(&self, line: usize) -> usize {
        match self.open.last() {
            Some(bracket) if bracket.line == line => bracket.level,
            Some(bracket) => bracket.level.saturating_add(1),
            None => 1,
        }
    }

    /// Goes past a piece of a line.
    pub fn pass(&mut self, piece: &Piece<'_>, line: usize) -> Result<(), Memory> {
        if opens(piece.text) {
            let level = self.level_inside(line);
            self.open.push(Bracket { line, level })?;
        } else if closes(piece.text) {
            let _ = self.open.pop();
        }
        Ok(())
    }
}
