//! The unit that a fault of typing breaks: a formula, a sum or a whole simple statement, as the words round it show.

use crate::source::Source;
use crate::texts::Reader;
use source_places::Span;

/// A unit, and the shortest text that may stand in its place.
#[derive(Clone, Copy, Debug)]
pub(crate) struct Unit {
    pub span: Span,
    pub instead: &'static str,
}

/// What stands in front of a statement of a program.
fn begins_statement(word: &str) -> bool {
    matches!(
        word,
        ";" | "[" | "do" | "then" | "else" | "or" | "<<" | "::" | "||" | ":"
    )
}

/// What stands in front of a test.
fn begins_test(word: &str) -> bool {
    matches!(word, "if" | "while" | "await" | "where")
}

fn ends_in_program(word: &str) -> bool {
    matches!(
        word,
        ";" | "]" | "do" | "then" | "else" | "fi" | "or" | ">>" | "||" | "coend"
    )
}

/// What stands in front of a formula of a proof.
fn begins_formula(word: &str) -> bool {
    matches!(
        word,
        ":" | "by" | "==>" | "wait" | "leads" | "just" | "[" | "{" | ";" | ","
    )
}

/// What stands in front of a sum of a proof.
fn begins_sum(word: &str) -> bool {
    matches!(word, "within" | "rank" | "base" | "delay" | "top")
}

fn ends_in_proof(word: &str) -> bool {
    begins_sum(word)
        || matches!(
            word,
            ";" | "by" | "using" | "leads" | "==>" | "wait" | "helper" | "group" | "," | "]" | "}"
        )
}

/// What may stand behind a word in place of a unit; `None` where no unit begins behind it.
fn instead(reader: &Reader, word: &str) -> Option<&'static str> {
    match reader {
        Reader::Program => if begins_test(word) {
            Some("true")
        } else if begins_statement(word) {
            Some("skip")
        } else {
            None
        },
        _ => if begins_sum(word) {
            Some("0")
        } else if begins_formula(word) {
            Some("0 = 0")
        } else {
            None
        },
    }
}

fn ends(reader: &Reader, word: &str) -> bool {
    match reader {
        Reader::Program => ends_in_program(word),
        _ => ends_in_proof(word),
    }
}

/// The number of the unit's first token, and what may stand in its place: behind the nearest word before a token that begins
/// units.
fn begin(reader: &Reader, source: &Source, index: usize) -> Option<(usize, &'static str)> {
    for first in (0..index.saturating_add(1)).rev() {
        let before = match first.checked_sub(1) {
            Some(before) => source.word(before),
            None => "",
        };
        if let Some(instead) = instead(reader, before) {
            return Some((first, instead));
        }
    }
    None
}

/// The place behind the unit's last token, of those from a token on.
fn end(reader: &Reader, source: &Source, index: usize) -> u64 {
    let mut end = 0;
    for token in source.tokens.iter().skip(index) {
        if end != 0 && ends(reader, crate::source::word_of(token)) {
            return end;
        }
        end = Span::of(token).to;
    }
    end
}

/// The unit that the token at a place stands in.
pub(crate) fn unit_at(reader: &Reader, source: &Source, place: u64) -> Option<Unit> {
    let index = source.index_at(place);
    let (first, instead) = begin(reader, source, index)?;
    let from = source.tokens.get(first)?.start;
    let to = end(reader, source, index);
    if from < to {
        Some(Unit {
            span: Span { from, to },
            instead,
        })
    } else {
        None
    }
}
