//! Faults of the grammar: what was found, what may stand there, and what was meant.

use crate::advice::{KEYWORDS, help_behind, help_for_comparison, help_for_pair};
use crate::expected::expected;
use crate::meant::{help_instead, wants};
use crate::names::nearest;
use crate::source::Source;
use crate::texts::Reader;
use st_memory::Memory;
use st_tokens::TokenKind;
use std::alloc::Global;

/// The words in a list, the last behind `or`.
fn listed(alloc: Global, words: &[String]) -> Result<String, Memory> {
    let mut out = String::new(alloc);
    for (index, word) in words.iter().enumerate() {
        if 0 < index {
            out.push_str(if index.saturating_add(1) == words.len() {
                " or "
            } else {
                ", "
            })?;
        }
        out.push_str(word)?;
    }
    Ok(out)
}

/// Whether a keyword stands at a place.
fn is_keyword(source: &Source, place: u64) -> bool {
    match source.tokens.get(source.index_at(place)) {
        Some(token) => token.start == place && token.kind == TokenKind::Keyword,
        None => false,
    }
}

/// What stands at a place, in words.
fn found(alloc: Global, source: &Source, place: u64) -> Result<String, Memory> {
    let word = source.word_at(place);
    if word.is_empty() {
        Ok(String::from_str(alloc, "the end of the text")?)
    } else if is_keyword(source, place) {
        Ok(format!(in alloc; "the keyword `{word}`")?)
    } else {
        Ok(format!(in alloc; "`{word}`")?)
    }
}

/// The sentence on a fault of the grammar.
fn sentence(alloc: Global, found: &str, wanted: &[String]) -> Result<String, Memory> {
    if wanted.is_empty() {
        return Ok(format!(in alloc; "no text goes on with {found} here")?);
    }
    let listed = listed(alloc, wanted)?;
    Ok(format!(in alloc; "expected {listed}, found {found}")?)
}

/// What is said of a text without tokens.
fn empty(source: &Source) -> &'static str {
    let text = source.file.text;
    if text.contains(&b'\r') && !text.contains(&b'\n') {
        "its lines end with carriage returns alone, so its comment goes on to the end of the text"
    } else {
        "the text is empty"
    }
}

/// Whether the two texts may have been exchanged.
fn exchanged(reader: &Reader, source: &Source, place: u64) -> Option<&'static str> {
    if source.tokens.is_empty() {
        return Some(empty(source));
    }
    if source.index_at(place) != 0 {
        let first = matches!(source.word(1), "::");
        return match reader {
            Reader::Proof(_) if first => Some(
                "this looks like a program: the words are program, then proof",
            ),
            _ => None,
        };
    }
    match (reader, source.word(0)) {
        (Reader::Program, "invariant" | "waiting" | "response") => Some(
            "this looks like a proof: the words are program, then proof",
        ),
        (Reader::Proof(_), "in" | "local" | "out") => Some(
            "this looks like a program: the words are program, then proof",
        ),
        (Reader::Proof(_), "version") => Some(
            "this looks like certificates: the words are program, proof, certificates",
        ),
        (Reader::Proof(_), _) => match source.word(1) {
            "::" => Some("this looks like a program: the words are program, then proof"),
            "=" => Some("this looks like a schedule: the words are program, proof, schedule"),
            _ => None,
        },
        _ => None,
    }
}

/// The help from the tables.
fn from_tables(
    reader: &Reader,
    source: &Source,
    place: u64,
    wanted: &[String],
) -> Option<&'static str> {
    if let Some(help) = help_instead(reader, source, place, wanted) {
        return Some(help);
    }
    let before = source.word_before(place, 1);
    let found = source.word_at(place);
    if found == "=" && wants(wanted, "`:=`") {
        return Some("`=` compares: an assignment is `:=`");
    }
    if found == "by" && wants(wanted, "`,`") {
        return Some("`by` stands in front of `using`");
    }
    if found == ":=" && wants(wanted, "`where`") {
        return Some("a start value is given by `where`: `local x: integer where x = 0;`");
    }
    let next = source.word(source.index_at(place).saturating_add(1));
    if let Some(help) = help_for_pair(found, next) {
        return Some(help);
    }
    match help_behind(before, found) {
        Some(help) => Some(help),
        None if wants(wanted, "an operator") => help_for_comparison(found),
        None => None,
    }
}

/// The help for a `;`, a `,` or a bound that is missing.
fn separated(
    reader: &Reader,
    source: &Source,
    place: u64,
    wanted: &[String],
) -> Option<&'static str> {
    if wants(wanted, "`within`") {
        return Some("a response has a bound: `within N`");
    }
    if wants(wanted, "`then`") {
        return Some("a choice is `if .. then .. else .. fi`");
    }
    if !wants(wanted, "`;`") {
        return None;
    }
    if wants(wanted, "`,`") && !source.word_at(place).is_empty() {
        return Some("a `,` stands between two names");
    }
    match (reader, source.word_at(place)) {
        (Reader::Proof(_), "" | "invariant" | "waiting" | "response") => Some(
            "a step ends with `;`",
        ),
        (Reader::Schedule(_), _) => Some("each value and each move ends with `;`"),
        (Reader::Program, "" | "then" | "else" | "do" | "fi" | "od") => None,
        (Reader::Program, _) => Some("a `;` stands between two statements"),
        _ => None,
    }
}

/// The help for a keyword where a name may stand.
fn reserved(
    alloc: Global,
    source: &Source,
    place: u64,
    wanted: &[String],
) -> Result<Option<String>, Memory> {
    let names = wants(wanted, "a name")
        || wants(wanted, "an expression")
        || wants(wanted, "a statement");
    if !names || !is_keyword(source, place) {
        return Ok(None);
    }
    let word = source.word_at(place);
    Ok(Some(format!(in alloc;
        "`{word}` is a keyword, and no keyword is a name: take another, as `{word}1`"
    )?))
}

/// The keyword that was meant by the word at the place or the one before it.
fn misspelt(
    alloc: Global,
    source: &Source,
    place: u64,
    wanted: &[String],
) -> Result<Option<String>, Memory> {
    let found = source.word_at(place);
    if let Some(word) = near_keyword(alloc, found)? {
        let quoted = format!(in alloc; "`{word}`")?;
        if wants(wanted, &quoted) {
            return Ok(Some(format!(in alloc; "did you mean `{word}`?")?));
        }
    }
    let before = source.word_before(place, 1);
    match near_keyword(alloc, before)? {
        Some(word) => Ok(Some(format!(in alloc; "did you write `{before}` for `{word}`?")?)),
        None => Ok(None),
    }
}

/// The keyword that a word is near to, if it isn't one.
fn near_keyword(alloc: Global, word: &str) -> Result<Option<&'static str>, Memory> {
    if word.len() < 4 || KEYWORDS.iter().any(|keyword| *keyword == word) {
        return Ok(None);
    }
    nearest(alloc, word, &KEYWORDS)
}

/// What is said of a fault of the grammar: the sentence, what may stand there, and help.
#[derive(Drop)]
pub(crate) struct SyntaxWords {
    pub sentence: String,
    pub expected: Vec<String>,
    pub help: Option<String>,
}

fn help(
    alloc: Global,
    reader: &Reader,
    source: &Source,
    place: u64,
    wanted: &[String],
) -> Result<Option<String>, Memory> {
    let table = match exchanged(reader, source, place) {
        Some(help) => Some(help),
        None => from_tables(reader, source, place, wanted),
    };
    if let Some(help) = table {
        return Ok(Some(String::from_str(alloc, help)?));
    }
    if let Some(help) = reserved(alloc, source, place, wanted)? {
        return Ok(Some(help));
    }
    if let Some(help) = misspelt(alloc, source, place, wanted)? {
        return Ok(Some(help));
    }
    match separated(reader, source, place, wanted) {
        Some(help) => Ok(Some(String::from_str(alloc, help)?)),
        None => Ok(None),
    }
}

/// What is said of a fault of the grammar at a place, behind what was read before it.
pub(crate) fn syntax_words(
    alloc: Global,
    reader: &Reader,
    source: &Source,
    before: &[u8],
    place: u64,
) -> Result<SyntaxWords, Memory> {
    let expected = expected(alloc, reader, before)?;
    let found = found(alloc, source, place)?;
    Ok(SyntaxWords {
        sentence: sentence(alloc, &found, &expected)?,
        help: help(alloc, reader, source, place, &expected)?,
        expected,
    })
}
