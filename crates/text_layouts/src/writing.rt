//! One line, written down.
//!
//! What stands between two pieces keeps them apart: nothing where the spacing says so, which it does only where nothing else would be
//! read; a line feed behind a comment, which runs to the end of its line; else a space.

ghost use Rattle.std.specs.Prelude.{◌≡◌, ◌++◌, [], OnOk, None};
ghost use Rattle.text_layouts.specs.Written.{IsGap, Writes};

use crate::piece::Piece;
use crate::spacing::is_spaced;
use st_memory::Memory;

/// What stands between the last piece of a line, before which `before` stands, and the next.
#[tactic(auto, using(crate::proofs::Apart::gap_rules))]
fn gap(before: Option<Piece<'_>>, last: Option<Piece<'_>>, next: &Piece<'_>) -> &'static [u8]
    ensures { IsGap last.entry result.now next.now.text.now }
{
    match last {
        None => b"",
        Some(last) => {
            if last.is_comment() {
                b"\n"
            } else if is_spaced(before.as_ref(), &last, next) {
                b" "
            } else {
                b""
            }
        }
    }
}

/// Appends an empty line, where there is to be one.
pub fn push_empty_line(out: &mut Vec<u8>, is_parted: bool) -> Result<(), Memory>
    ensures { OnOk result (Writes out.old.items out.new.items [] None) }
{
    if is_parted {
        out.push(b'\n')?;
    }
    Ok(())
}

/// Appends spaces.
fn push_spaces(out: &mut Vec<u8>, count: usize) -> Result<(), Memory>
    ensures { OnOk result (Writes out.old.items out.new.items [] None) }
{
    for _ in 0..count {
        out.push(b' ')?;
    }
    Ok(())
}

/// Appends the pieces of a line behind as many spaces.
pub fn push_line(out: &mut Vec<u8>, indentation: usize, pieces: &[Piece<'_>]) -> Result<(), Memory>
    ensures { OnOk result (Writes out.old.items out.new.items pieces.now None) }
{
    push_spaces(out, indentation)?;
    let mut before: Option<Piece<'_>> = None;
    let mut last: Option<Piece<'_>> = None;
    for piece in pieces {
        out.extend_from_slice(gap(before, last, piece))?;
        out.extend_from_slice(piece.text)?;
        before = last;
        last = Some(*piece);
    }
    out.push(b'\n')?;
    Ok(())
}
