//! Documents laid out.

use crate::changes::TextEdit;
use crate::places::position;
use crate::protocol::{Position, Range};
use source_lines::Lines;
use st_memory::Memory;
use std::alloc::Global;
use std::str;
use text_layouts::{LayoutFault, laid_out};

/// The text laid out; `None` where a byte of it begins no token.
fn laid(alloc: Global, text: &[u8]) -> Result<Option<Vec<u8>>, Memory> {
    match laid_out(alloc, text) {
        Ok(text) => Ok(Some(text)),
        Err(LayoutFault::Memory) => Err(Memory),
        Err(LayoutFault::Token(_)) => Ok(None),
    }
}

/// The edits that lay a document out: one of all of it, or none where it can't be laid out.
pub fn edits(alloc: Global, text: &[u8]) -> Result<Vec<TextEdit>, Memory> {
    let mut out = Vec::new(alloc);
    if let Some(laid) = laid(alloc, text)?
        && let Ok(new_text) = str::from_utf8(laid.as_slice())
    {
        let lines = Lines::new(alloc, text)?;
        out.push(TextEdit {
            range: Range {
                start: Position {
                    line: 0,
                    character: 0,
                },
                end: position(&lines, text.len() as u64),
            },
            new_text: String::from_str(alloc, new_text)?,
        })?;
    }
    Ok(out)
}
