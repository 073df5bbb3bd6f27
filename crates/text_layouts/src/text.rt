//! A text laid out to be read.
//!
//! Lines that were broken stay broken. What is settled is where a space stands within a line, how deep a line stands, that at most
//! one line is left empty, and where a line of more than 120 bytes is broken. Comments stay where they stand.

ghost use Rattle.std.specs.Prelude.{IfErr, IfOk};
ghost use Rattle.text_layouts.specs.Refused.{IsRefused};
ghost use Rattle.text_layouts.specs.Same.{SaysTheSame};

use crate::fault::LayoutFault;
use crate::paragraphs::push_lines;
use crate::scanning::pieces;
use std::alloc::Global;

/// The text laid out. It has the tokens of the text in their order, and, blanks apart, its bytes: nothing that is read changes,
/// and no comment is lost.
///
/// # Errors
///
/// `Token` with the first place where no token stands, or want of memory.
pub fn laid_out(alloc: Global, text: &[u8]) -> Result<Vec<u8>, LayoutFault>
    ensures laid { IfOk result (λ out. SaysTheSame text.now out.items) }
    ensures refused { IfErr result (IsRefused text.now) }
{
    let pieces = pieces(alloc, text)?;
    let mut out = Vec::new(alloc);
    push_lines(alloc, &mut out, pieces.as_slice())?;
    Ok(out)
}
