//! What may stand where a text breaks off. A reader names the first place at which no text goes on so; a token may stand there
//! exactly where the text before it, with this token behind, breaks off later or not at all (the law `first_fault` of
//! `spl_parser`). So nothing of a reader is repeated here: it is asked once for each token of the language.

use crate::refusal::{Kind, Refusal};
use crate::texts::Reader;
use st_memory::Memory;
use std::alloc::Global;

/// Behind how many bytes nobody is asked.
const FAR: usize = 1 << 18;

/// What a token begins or goes on with, beside itself.
#[derive(Clone, Copy, Debug, PartialEq, Eq)]
enum Part {
    Alone,
    Statement,
    Expression,
    Operator,
}

/// The tokens of the language, each with what it is part of.
const PROBES: [(&str, Part); 62] = [
    (";", Part::Alone),
    ("]", Part::Alone),
    (")", Part::Alone),
    ("}", Part::Alone),
    (",", Part::Alone),
    (":", Part::Alone),
    ("::", Part::Alone),
    (":=", Part::Alone),
    ("||", Part::Alone),
    ("->", Part::Alone),
    ("[", Part::Statement),
    ("<<", Part::Statement),
    (">>", Part::Alone),
    ("(", Part::Expression),
    ("{", Part::Alone),
    (".", Part::Alone),
    ("then", Part::Alone),
    ("else", Part::Alone),
    ("fi", Part::Alone),
    ("do", Part::Alone),
    ("forever", Part::Alone),
    ("or", Part::Alone),
    ("coend", Part::Alone),
    ("in", Part::Alone),
    ("local", Part::Alone),
    ("out", Part::Alone),
    ("where", Part::Alone),
    ("integer", Part::Alone),
    ("boolean", Part::Alone),
    ("if", Part::Statement),
    ("while", Part::Statement),
    ("loop", Part::Statement),
    ("at", Part::Expression),
    ("~", Part::Expression),
    ("=", Part::Operator),
    ("\\/", Part::Operator),
    ("invariant", Part::Alone),
    ("waiting", Part::Alone),
    ("response", Part::Alone),
    ("==>", Part::Alone),
    ("wait", Part::Alone),
    ("leads", Part::Alone),
    ("within", Part::Alone),
    ("by", Part::Alone),
    ("using", Part::Alone),
    ("just", Part::Alone),
    ("chain", Part::Alone),
    ("ranked", Part::Alone),
    ("fair", Part::Alone),
    ("net", Part::Alone),
    ("diagram", Part::Alone),
    ("base", Part::Alone),
    ("delay", Part::Alone),
    ("top", Part::Alone),
    ("group", Part::Alone),
    ("helper", Part::Alone),
    ("rank", Part::Alone),
    ("terminal", Part::Alone),
    ("node", Part::Alone),
    ("edge", Part::Alone),
    ("on", Part::Alone),
    ("select", Part::Statement),
];

/// What goes on at a place.
#[derive(Clone, Copy, Debug)]
struct Ahead {
    statement: bool,
    expression: bool,
    operator: bool,
}

/// Whether the text before a place goes on with this word, which a line feed parts from it, as a comment may stand there.
fn goes_on(alloc: Global, reader: &Reader, before: &[u8], word: &str) -> Result<bool, Memory> {
    let mut text = Vec::new(alloc);
    text.extend_from_slice(before)?;
    text.extend_from_slice(b"\n".as_slice())?;
    text.extend_from_slice(word.as_bytes())?;
    text.extend_from_slice(b"\n".as_slice())?;
    let place = (before.len() as u64).saturating_add(1);
    match reader.refusal(alloc, &text)? {
        Some(
            Refusal {
                kind: Kind::Syntax,
                place: fault,
            },
        ) => Ok(place < fault),
        _ => Ok(true),
    }
}

/// Whether a word says more than that a statement, an expression or an operator may stand there.
fn is_news(ahead: Ahead, part: Part) -> bool {
    match part {
        Part::Alone => true,
        Part::Statement => !ahead.statement,
        Part::Expression => !ahead.expression,
        Part::Operator => !ahead.operator,
    }
}

/// Appends a word as it is written.
fn push_quoted(alloc: Global, out: &mut Vec<String>, word: &str) -> Result<(), Memory> {
    out.push(format!(in alloc; "`{word}`")?)?;
    Ok(())
}

fn push_named(alloc: Global, out: &mut Vec<String>, what: &str) -> Result<(), Memory> {
    out.push(String::from_str(alloc, what)?)?;
    Ok(())
}

/// Appends what is more than a token.
fn push_parts(
    alloc: Global,
    reader: &Reader,
    before: &[u8],
    ahead: Ahead,
    out: &mut Vec<String>,
) -> Result<(), Memory> {
    if ahead.statement {
        push_named(alloc, out, "a statement")?;
    }
    if ahead.expression {
        push_named(alloc, out, "an expression")?;
    } else if goes_on(alloc, reader, before, "name")? && !ahead.statement {
        push_named(alloc, out, "a name")?;
    }
    if ahead.operator {
        push_named(alloc, out, "an operator")?;
    }
    Ok(())
}

/// What may stand behind the bytes in front of a fault of the grammar, in words; nothing where they are many.
pub(crate) fn expected(
    alloc: Global,
    reader: &Reader,
    before: &[u8],
) -> Result<Vec<String>, Memory> {
    let mut out = Vec::new(alloc);
    if FAR < before.len() {
        return Ok(out);
    }
    let expression = goes_on(alloc, reader, before, "0")?;
    let ahead = Ahead {
        statement: goes_on(alloc, reader, before, "skip")?,
        expression,
        operator: !expression && goes_on(alloc, reader, before, "/\\")?,
    };
    for (word, part) in PROBES {
        if is_news(ahead, part) && goes_on(alloc, reader, before, word)? {
            push_quoted(alloc, &mut out, word)?;
        }
    }
    push_parts(alloc, reader, before, ahead, &mut out)?;
    Ok(out)
}
