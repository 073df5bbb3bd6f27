//! What a name stands for: where it is introduced, what is told of it, and which names may stand at a place.

use crate::definitions::{Definition, Sort, definitions};
use crate::places::{place, range, slice, words};
use crate::protocol::{CompletionItem, Hover, Location, Markup, Position};
use crate::texts::{Pair, Source};
use crate::verdicts::{Verdicts, sentence};
use source_lines::Lines;
use source_places::{Span, token_at, tokens_of};
use st_memory::Memory;
use std::alloc::Global;

/// The names that a text introduces.
fn introduced<'a>(alloc: Global, source: &'a Source) -> Result<Vec<Definition<'a>>, Memory> {
    let tokens = tokens_of(alloc, source.text.as_slice())?;
    definitions(alloc, tokens.as_slice())
}

/// Which part of a pair a name is looked for in.
fn found<'b, 'a>(definitions: &'b [Definition<'a>], name: &[u8]) -> Option<&'b Definition<'a>> {
    definitions.iter().find(|it| it.name == name)
}

/// The word at a position of a text; where there is none, nothing.
fn word_in(alloc: Global, source: &Source, at: Position) -> Result<Span, Memory> {
    let text = source.text.as_slice();
    let lines = Lines::new(alloc, text)?;
    Ok(token_at(text, place(&lines, at)))
}

/// The source in which a name is introduced, and how.
fn introduction<'a>(
    alloc: Global,
    pair: &'a Pair,
    name: &[u8],
) -> Result<Option<(&'a Source, Definition<'a>)>, Memory> {
    if let Some(definition) = found(introduced(alloc, &pair.program)?.as_slice(), name) {
        return Ok(Some((&pair.program, *definition)));
    }
    if let Some(proof) = &pair.proof
        && let Some(definition) = found(introduced(alloc, proof)?.as_slice(), name)
    {
        return Ok(Some((proof, *definition)));
    }
    Ok(None)
}

/// A name at a position: the text and the place where it stands, and the text and the place where it is introduced.
#[derive(Clone, Copy)]
struct Use<'a> {
    here: &'a Source,
    span: Span,
    source: &'a Source,
    definition: Definition<'a>,
}

/// The name at a position of one of the texts of a file.
fn use_in<'a>(
    alloc: Global,
    pair: &'a Pair,
    here: &'a Source,
    at: Position,
) -> Result<Option<Use<'a>>, Memory> {
    let span = word_in(alloc, here, at)?;
    let name = slice(here.text.as_slice(), span);
    match introduction(alloc, pair, name)? {
        Some((source, definition)) => Ok(Some(Use {
            here,
            span,
            source,
            definition,
        })),
        None => Ok(None),
    }
}

/// The name at a position of a file. In a text with program and proof it is looked for in both, since each has blanks for the other
/// or ends before it.
fn used<'a>(
    alloc: Global,
    pair: &'a Pair,
    uri: &str,
    at: Position,
) -> Result<Option<Use<'a>>, Memory> {
    if let Some(proof) = &pair.proof
        && proof.uri.as_str() == uri
        && let Some(found) = use_in(alloc, pair, proof, at)?
    {
        return Ok(Some(found));
    }
    if pair.program.uri.as_str() == uri {
        use_in(alloc, pair, &pair.program, at)
    } else {
        Ok(None)
    }
}

/// Where the name at a position is introduced.
pub fn definition(
    alloc: Global,
    pair: &Pair,
    uri: &str,
    at: Position,
) -> Result<Option<Location>, Memory> {
    let Some(found) = used(alloc, pair, uri, at)? else {
        return Ok(None);
    };
    let source = found.source;
    let lines = Lines::new(alloc, source.text.as_slice())?;
    Ok(Some(Location {
        uri: source.uri.clone()?,
        range: range(&lines, found.definition.place),
    }))
}

/// What introduces a name; of a step also what became of it.
fn told_of(
    alloc: Global,
    verdicts: &Verdicts,
    source: &Source,
    definition: &Definition<'_>,
) -> Result<String, Memory> {
    let mut out = String::from_str(alloc, definition.sort.word())?;
    out.push_str("\n```spl\n")?;
    out.push_str(words(slice(source.text.as_slice(), definition.extent)))?;
    out.push_str("\n```")?;
    if definition.sort == Sort::Step
        && let Some(step) = verdicts.of(source.uri.as_str(), definition.name)
    {
        out.push_str("\n")?;
        out.push_str(sentence(alloc, step)?.as_str())?;
    }
    Ok(out)
}

/// What the name at a position is.
pub fn hover(
    alloc: Global,
    pair: &Pair,
    verdicts: &Verdicts,
    uri: &str,
    at: Position,
) -> Result<Option<Hover>, Memory> {
    let Some(found) = used(alloc, pair, uri, at)? else {
        return Ok(None);
    };
    let here = found.here;
    let lines = Lines::new(alloc, here.text.as_slice())?;
    let definition = found.definition;
    Ok(Some(Hover {
        contents: Markup {
            kind: "markdown",
            value: told_of(alloc, verdicts, found.source, &definition)?,
        },
        range: range(&lines, found.span),
    }))
}

/// The kinds of completion items of the protocol.
fn kind_of(sort: Sort) -> u8 {
    match sort {
        Sort::Variable => 6,
        Sort::Label | Sort::Process | Sort::Step => 18,
    }
}

fn push_items(alloc: Global, out: &mut Vec<CompletionItem>, source: &Source) -> Result<(), Memory> {
    for definition in &introduced(alloc, source)? {
        out.push(CompletionItem {
            label: String::from_str(alloc, words(definition.name))?,
            kind: kind_of(definition.sort),
            detail: String::from_str(alloc, definition.sort.word())?,
        })?;
    }
    Ok(())
}

/// The names of a program and its proof.
pub fn completions(alloc: Global, pair: &Pair) -> Result<Vec<CompletionItem>, Memory> {
    let mut out = Vec::new(alloc);
    push_items(alloc, &mut out, &pair.program)?;
    if let Some(proof) = &pair.proof {
        push_items(alloc, &mut out, proof)?;
    }
    Ok(out)
}
