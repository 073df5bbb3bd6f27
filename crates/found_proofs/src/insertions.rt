//! Where found texts go in the text that asks for them. What else the text has stays as it is, comments included.

use clause_texts::Sentence;
use st_memory::Memory;
use std::alloc::Global;
use step_report::push_text;

/// A text that goes in the place of the bytes from one place to before another.
#[derive(Drop)]
pub(crate) struct Insertion {
    pub(crate) from: usize,
    pub(crate) to: usize,
    pub(crate) text: Vec<u8>,
}

/// The text from one place to before another; nothing where there are no such places.
pub(crate) fn between(text: &[u8], from: usize, to: usize) -> &[u8] {
    match text.get(from..to) {
        Some(part) => part,
        None => &[],
    }
}

/// The text before a place with insertions, whose places rise.
pub(crate) fn inserted(
    alloc: Global,
    text: &[u8],
    end: usize,
    insertions: &[Insertion],
) -> Result<Vec<u8>, Memory> {
    let mut out = Vec::with_capacity(alloc, text.len())?;
    let mut from = 0;
    for insertion in insertions {
        push_text(&mut out, between(text, from, insertion.from))?;
        push_text(&mut out, &insertion.text)?;
        from = insertion.to;
    }
    push_text(&mut out, between(text, from, end))?;
    Ok(out)
}

/// How many bytes stand in front of a place on its line.
fn column(text: &[u8], place: usize) -> usize {
    let before = between(text, 0, place);
    match before.iter().rposition(|byte| *byte == b'\n') {
        Some(last) => before.len().saturating_sub(last).saturating_sub(1),
        None => before.len(),
    }
}

/// Whether a line begins at a place.
pub(crate) fn starts_line(text: &[u8], place: usize) -> bool {
    column(text, place) == 0
}

/// Whether a line has nothing but blanks.
fn is_blank(line: &[u8]) -> bool {
    line.iter().all(|byte| byte.is_ascii_whitespace())
}

/// Where lemmas of a step go that begins at a place, behind a step that ends at another (0 for the first step): in front of the comment
/// that stands directly above the step, but behind the one that heads the text.
pub(crate) fn place_above(text: &[u8], behind: usize, start: usize) -> usize {
    let gap = between(text, behind, start);
    let mut place = start;
    let mut passed = behind;
    let mut lines = 0usize;
    for line in gap.split(|byte| *byte == b'\n') {
        let next = passed.saturating_add(line.len()).saturating_add(1);
        let heads = lines == 0 && behind > 0;
        if next <= start && (heads || (lines > 0 && is_blank(line))) {
            place = next;
        }
        passed = next;
        lines = lines.saturating_add(1);
    }
    place
}

/// What stands behind a claim that ends at a place: its rule, and the steps that it cites.
pub(crate) fn ending(
    alloc: Global,
    text: &[u8],
    place: usize,
    by_true: bool,
    citation: &[u8],
) -> Result<Vec<u8>, Memory> {
    let mut out = Sentence::behind(alloc, column(text, place).max(1));
    if by_true {
        out.push_unit(b"by true")?;
    }
    if !citation.is_empty() {
        out.push_unit(citation)?;
    }
    Ok(out.text())
}
