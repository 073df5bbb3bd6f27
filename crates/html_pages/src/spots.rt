//! Places in texts, each with its line, in which what is meant is marked.

use crate::page::Page;
use crate::sources::{ProofPlace, push_link};
use proof_reports::Spot;
use source_lines::Lines;
use st_memory::Memory;
use std::alloc::Global;

/// Appends a line in which the bytes from one place to another are marked.
fn push_marked(page: &mut Page, line: &[u8], from: usize, to: usize) -> Result<(), Memory> {
    let (before, rest) = line.split_at(from.min(line.len()));
    let (inside, behind) = rest.split_at(to.saturating_sub(from).min(rest.len()));
    page.bytes(before)?;
    page.markup("<mark>")?;
    page.bytes(inside)?;
    page.markup("</mark>")?;
    page.bytes(behind)
}

/// Appends the line of a place.
fn push_source_line(alloc: Global, page: &mut Page, spot: &Spot) -> Result<(), Memory> {
    let line = spot.source.as_bytes();
    let lines = Lines::new(alloc, line)?;
    let from = lines.place(1, spot.column as usize) as usize;
    let to = if spot.end_line == spot.line {
        lines.place(1, spot.end_column as usize) as usize
    } else {
        line.len()
    };
    push_marked(page, line, from, to)
}

/// Appends a place: where it is, what is told of it, and its line. `proof` says where the proof stands.
pub(crate) fn push_spot(
    alloc: Global,
    page: &mut Page,
    proof: ProofPlace<'_>,
    spot: &Spot,
) -> Result<(), Memory> {
    let role = proof.role(&spot.file, spot.line);
    page.markup("<div class=\"faint\">")?;
    push_link(page, role, spot.line)?;
    page.text(&spot.file)?;
    page.markup(":")?;
    page.number(spot.line)?;
    page.markup(":")?;
    page.number(spot.column)?;
    page.inside("</a> ", &spot.note, "</div>\n<pre>")?;
    push_source_line(alloc, page, spot)?;
    page.markup("</pre>\n")
}
