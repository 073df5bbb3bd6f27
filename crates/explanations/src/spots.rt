//! Places in the two texts.

use crate::sources::Sources;
use program_words::{piece, spot};
use proof_reports::Spot;
use source_places::Span;
use st_memory::Memory;
use std::alloc::Global;

impl Sources<'_> {
    /// A place in the proof.
    pub(crate) fn in_proof(&self, alloc: Global, span: Span, note: &str) -> Result<Spot, Memory> {
        let texts = &self.texts;
        spot(alloc, texts.proof_name, texts.proof, self.proof, span, note)
    }

    /// A place in the program.
    pub(crate) fn in_program(&self, alloc: Global, span: Span, note: &str) -> Result<Spot, Memory> {
        let texts = &self.texts;
        spot(
            alloc,
            texts.program_name,
            texts.program,
            self.program,
            span,
            note,
        )
    }

    /// What a statement's text is; nothing where its place isn't known.
    pub(crate) fn statement_text(&self, alloc: Global, occurrence: u32) -> Result<String, Memory> {
        match self.places.statements.get(occurrence as usize) {
            Some(place) => piece(alloc, self.texts.program, place.head),
            None => Ok(String::new(alloc)),
        }
    }
}
