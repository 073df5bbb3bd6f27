//! Names that stand where a transition is wanted.

use crate::lemmas::labelled;
use crate::names::nearest;
use crate::source::Source;
use source_places::{Span, StatementPlace, statement_places};
use spl_parser::parse_program;
use st_memory::Memory;
use std::alloc::Global;

/// How many labels are listed.
const LISTED: usize = 4;

/// Where the statements of a program stand; none where it is refused.
fn statements(alloc: Global, program: &Source) -> Result<Vec<StatementPlace>, Memory> {
    match parse_program(alloc, program.file.text) {
        Ok(raw) => statement_places(alloc, program.file.text, &raw),
        Err(_) => Ok(Vec::new(alloc)),
    }
}

/// Whether a stretch lies in another and isn't that one.
fn is_inside(inner: Span, outer: Span) -> bool {
    outer.from < inner.from && inner.to <= outer.to
}

/// The stretch of the statement with a label.
fn labelled_stretch(program: &Source, places: &[StatementPlace], word: &str) -> Option<Span> {
    for place in places {
        if let Some(label) = place.label {
            if program.word_at(label.from) == word {
                return Some(place.whole);
            }
        }
    }
    None
}

/// The labels of the statements inside the one with a label, in words.
fn inner_labels(alloc: Global, program: &Source, word: &str) -> Result<Option<String>, Memory> {
    let places = statements(alloc, program)?;
    let Some(outer) = labelled_stretch(program, &places, word) else {
        return Ok(None);
    };
    let mut out = String::new(alloc);
    let mut count: usize = 0;
    for place in &places {
        if let (true, Some(label)) = (
            count < LISTED && is_inside(place.whole, outer),
            place.label,
        ) {
            let name = program.word_at(label.from);
            let separator = if count == 0 { "" } else { ", " };
            let quoted = format!(in alloc; "{separator}`{name}`")?;
            out.push_str(&quoted)?;
            count = count.saturating_add(1);
        }
    }
    if count == 0 { Ok(None) } else { Ok(Some(out)) }
}

/// Whether a process has the name.
fn is_process(program: &Source, word: &str) -> bool {
    let behind = program.tokens.iter().skip(1);
    program.tokens.iter().zip(behind).any(|(token, next)| token.text == word.as_bytes()
        && next.text == b"::".as_slice())
}

/// What is said of a name of no transition, and what it may have been.
pub(crate) fn transition_words(
    alloc: Global,
    program: &Source,
    word: &str,
) -> Result<(String, Option<String>), Memory> {
    let labels = labelled(alloc, program)?;
    if labels.iter().any(|label| *label == word) {
        let sentence = format!(in alloc;
            "`{word}` labels a block, a selection or an end, which has no transition of its own"
        )?;
        let help = match inner_labels(alloc, program, word)? {
            Some(inner) => Some(format!(in alloc; "inside stand {inner}")?),
            None => None,
        };
        return Ok((sentence, help));
    }
    if is_process(program, word) {
        let sentence = format!(in alloc; "`{word}` is a process, and no transition")?;
        return Ok((sentence, None));
    }
    let help = match nearest(alloc, word, &labels)? {
        Some(near) => Some(format!(in alloc; "did you mean `{near}`?")?),
        None => None,
    };
    Ok((format!(in alloc; "no transition is called `{word}`")?, help))
}
