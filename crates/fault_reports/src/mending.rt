//! A text in which a fault is mended by force, so that what is refused behind it is found too. What stands behind the mended
//! part stays as far from the end as it was, so places in it are known.

use crate::refusal::{Kind, Refusal};
use crate::source::{Source, TextFile, word_of};
use crate::texts::Reader;
use crate::units::unit_at;
use source_places::Span;
use st_memory::Memory;
use std::alloc::Global;

/// The text with other bytes in place of a stretch.
fn replaced(alloc: Global, text: &[u8], span: Span, instead: &[u8]) -> Result<Vec<u8>, Memory> {
    let from = text.len().min(span.from as usize);
    let to = text.len().min(span.to as usize).max(from);
    let mut out = Vec::new(alloc);
    out.extend_from_slice(text.split_at(from).0)?;
    out.extend_from_slice(instead)?;
    out.extend_from_slice(text.split_at(to).1)?;
    Ok(out)
}

/// A unit of the wrong type as one that has the right type.
fn without_unit(
    alloc: Global,
    reader: &Reader,
    source: &Source,
    place: u64,
) -> Result<Option<Vec<u8>>, Memory> {
    match unit_at(reader, source, place) {
        Some(unit) => Ok(Some(replaced(
            alloc,
            source.file.text,
            unit.span,
            unit.instead.as_bytes(),
        )?)),
        None => Ok(None),
    }
}

/// A name that was declared before as one that wasn't.
fn renamed(alloc: Global, source: &Source, place: u64) -> Result<Option<Vec<u8>>, Memory> {
    let name = format!(in alloc; "other_{place}")?;
    Ok(Some(replaced(
        alloc,
        source.file.text,
        source.span_at(place),
        name.as_bytes(),
    )?))
}

/// The stretch of the `using` that a name stands behind.
fn citing(source: &Source, place: u64) -> Option<Span> {
    let mut span = None;
    for token in &source.tokens {
        let word = word_of(token);
        if word == "using" && token.start < place {
            span = Some(Span::of(token));
        }
        if place <= token.start && word == ";" {
            return Some(span?.to(Span {
                from: token.start,
                to: token.start,
            }));
        }
    }
    None
}

/// A step without what it cites.
fn uncited(alloc: Global, source: &Source, place: u64) -> Result<Option<Vec<u8>>, Memory> {
    match citing(source, place) {
        Some(span) => Ok(Some(replaced(alloc, source.file.text, span, b"".as_slice())?)),
        None => Ok(None),
    }
}

/// The text with a fault mended; `None` where what is behind it rests on it.
pub(crate) fn mended(
    alloc: Global,
    reader: &Reader,
    text: &[u8],
    refusal: Refusal,
) -> Result<Option<Vec<u8>>, Memory> {
    let source = Source::new(alloc, TextFile { name: "", text })?;
    match refusal.kind {
        Kind::Unknown
        | Kind::WrongType
        | Kind::NonLinear
        | Kind::TooLarge
        | Kind::InputAssigned
        | Kind::SameTarget => without_unit(alloc, reader, &source, refusal.place),
        Kind::Twice => renamed(alloc, &source, refusal.place),
        Kind::UnknownLemma | Kind::NotInvariant => uncited(alloc, &source, refusal.place),
        _ => Ok(None),
    }
}
