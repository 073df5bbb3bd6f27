//! Places in a text as the protocol counts them: lines from 0, and code units of UTF-16 (*Language Server Protocol Specification*,
//! 3.17, "Position").

use crate::protocol::{Position, Range};
use proof_reports::Spot;
use source_lines::Lines;
use source_places::Span;
use std::str;

/// How many code units the text takes before a place that is so many bytes behind its begin.
fn units_before(line: &[u8], bytes: usize) -> u64 {
    let before = line.split_at(bytes.min(line.len())).0;
    let mut units = 0u64;
    for byte in before {
        units = units.saturating_add(units_of(*byte));
    }
    units
}

/// How many code units a character takes, told at the first byte of its UTF-8 (RFC 3629, section 3): two where it has four bytes.
fn units_of(byte: u8) -> u64 {
    if byte < 128 || (192 <= byte && byte < 240) {
        1
    } else if 240 <= byte {
        2
    } else {
        0
    }
}

/// The place of a byte.
pub fn position(lines: &Lines<'_>, place: u64) -> Position {
    let at = lines.position(place);
    let line = lines.line(at.line);
    let begin = lines.place(at.line, 1);
    Position {
        line: (at.line as u64).saturating_sub(1),
        character: units_before(line, place.saturating_sub(begin) as usize),
    }
}

pub fn range(lines: &Lines<'_>, span: Span) -> Range {
    Range {
        start: position(lines, span.from),
        end: position(lines, span.to),
    }
}

/// The range of a place that is shown.
pub fn range_of_spot(lines: &Lines<'_>, spot: &Spot) -> Range {
    range(
        lines,
        Span {
            from: spot.offset,
            to: spot.offset.saturating_add(spot.length),
        },
    )
}

/// The place of a position in the text.
pub fn place(lines: &Lines<'_>, at: Position) -> u64 {
    lines.place_of_units((at.line as usize).saturating_add(1), at.character as usize)
}

/// The bytes of a span; none where it isn't within the text.
pub fn slice(text: &[u8], span: Span) -> &[u8] {
    let to = (span.to as usize).min(text.len());
    let from = (span.from as usize).min(to);
    text.split_at(to).0.split_at(from).1
}

/// What is text of the bytes: all of them, but for texts that aren't UTF-8.
pub fn words(bytes: &[u8]) -> &str {
    str::from_utf8(bytes).unwrap_or("")
}
