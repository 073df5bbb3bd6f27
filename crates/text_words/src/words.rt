//! The text is read once more for the names of processes and the places of statements, which a typed program doesn't keep.

ghost use Rattle.posed_conditions.specs.Translated.{IsTranslated};

use formula_words::Vocabulary;
use posed_conditions::TranslatedProgram;
use program_words::vocabulary;
use source_lines::Lines;
use source_places::statement_places;
use spl_parser::{RawProgram, parse_program};
use st_memory::Memory;
use std::alloc::Global;

/// The words of a program whose raw program is at hand.
fn words_by(
    alloc: Global,
    source: &TranslatedProgram,
    text: &[u8],
    raw: &RawProgram<'_>,
) -> Result<Vocabulary, Memory>
    requires { IsTranslated source.now }
{
    let lines = Lines::new(alloc, text)?;
    let places = statement_places(alloc, text, raw)?;
    vocabulary(alloc, source, &raw.processes, &lines, &places)
}

/// The words of the program that a text spells. Where the text is refused, what has no label is called by its number.
pub fn text_words(
    alloc: Global,
    source: &TranslatedProgram,
    text: &[u8],
) -> Result<Vocabulary, Memory>
    requires { IsTranslated source.now }
{
    match parse_program(alloc, text) {
        Ok(raw) => words_by(alloc, source, text, &raw),
        Err(_) => vocabulary(alloc, source, &[], &Lines::new(alloc, text)?, &[]),
    }
}
