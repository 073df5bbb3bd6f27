//! Places in a text, with the line that each stands on.

ghost use Rattle.std.specs.Prelude.{◌≡◌, IfOk};

use proof_reports::Spot;
use source_lines::Lines;
use source_places::Span;
use st_memory::Memory;
use std::alloc::Global;

/// The bytes from a place to before another; none where the text ends before.
fn slice(text: &[u8], span: Span) -> &[u8] {
    text.get(span.from as usize..span.to as usize)
        .unwrap_or(&[])
}

fn text_of(alloc: Global, bytes: &[u8]) -> Result<String, Memory> {
    Ok(String::from_utf8_lossy(alloc, bytes)?)
}

/// What stands in a stretch of a text; nothing where the text ends before, and U+FFFD for each piece that isn't UTF-8.
pub fn piece(alloc: Global, text: &[u8], span: Span) -> Result<String, Memory> {
    text_of(alloc, slice(text, span))
}

/// A place in a text, whose file has this name and whose lines these are.
pub fn spot(
    alloc: Global,
    file: &str,
    text: &[u8],
    lines: &Lines<'_>,
    span: Span,
    note: &str,
) -> Result<Spot, Memory>
    ensures { IfOk result (λ s. s.offset ≡ span.from) }
{
    let from = lines.position(span.from);
    let to = lines.position(span.to);
    Ok(Spot {
        file: String::from_str(alloc, file)?,
        line: from.line as u64,
        column: from.column as u64,
        end_line: to.line as u64,
        end_column: to.column as u64,
        offset: span.from,
        length: span.to.saturating_sub(span.from),
        text: piece(alloc, text, span)?,
        source: text_of(alloc, lines.line(from.line))?,
        note: String::from_str(alloc, note)?,
    })
}
