//! The pieces of a text: its tokens, and the comments between them.
//!
//! What stands at a place is told by its first byte: a blank, the `%` of a comment, or else the next token.

ghost use Rattle.std.specs.Prelude.{◌≡◌, ◌++◌, ◌≤◌, ◌<◌, ℕ, List, drop, length, true, IfOk, IfErr, OnOk};
ghost use Rattle.std.specs.List.{prefix_len};
ghost use Rattle.st_tokens.specs.Text.{is_blank, is_line_byte};
ghost use Rattle.text_layouts.specs.Whole.{IsWhole};
ghost use Rattle.text_layouts.specs.Pieces.{ArePieces, marks_of, starts_blank, starts_comment, tokens_at, tokens_of};
ghost use Rattle.text_layouts.specs.Written.{AreBlank};
ghost use Rattle.text_layouts.specs.Same.{marks};
ghost use Rattle.text_layouts.specs.Refused.{IsRefused};

use crate::fault::LayoutFault;
use crate::kind::PieceKind;
use crate::piece::Piece;
use st_memory::Memory;
use st_tokens::Tokens;
use std::alloc::Global;

fn is_blank(byte: u8) -> bool
    ensures { result ≡ is_blank byte }
{
    byte == b' ' || byte == b'\t' || byte == b'\r' || byte == b'\n'
}

fn starts_blank(text: &[u8]) -> bool
    ensures { result ≡ starts_blank text.now }
{
    match text {
        [byte, ..] => is_blank(*byte),
        [] => false,
    }
}

fn starts_comment(text: &[u8]) -> bool
    ensures { result ≡ starts_comment text.now }
{
    match text {
        [byte, ..] => *byte == b'%',
        [] => false,
    }
}

/// What is behind the first byte.
fn behind_first(text: &[u8]) -> &[u8]
    requires { 0 < length text.now }
    ensures { result.now ≡ drop 1 text.now }
{
    text.split_at(1).1
}

fn line_len(bytes: &[u8]) -> usize
    ensures is { result ≡ prefix_len is_line_byte bytes.now }
    ensures within { result ≤ length bytes.now }
{
    bytes.iter().take_while(|b| **b != b'\n').count()
}

/// How many bytes a comment has that stands at the front, with the blanks at its end.
fn comment_len(text: &[u8]) -> usize
    requires { starts_comment text.now ≡ true }
    ensures is { result ≡ prefix_len is_line_byte text.now }
    ensures within { result ≤ length text.now }
    ensures some { 0 < result }
{
    line_len(text)
}

/// The bytes without the blanks at their end.
fn trimmed(bytes: &[u8]) -> &[u8]
    ensures { (blanks : List ℕ) × (bytes.now ≡ result.now ++ blanks) × AreBlank blanks }
{
    let mut kept = bytes.len();
    while 0 < kept && is_blank(bytes[kept - 1]) {
        kept -= 1;
    }
    bytes.split_at(kept).0
}

/// How many lines end before a piece, two at most, once the first byte is passed.
fn lines_behind(lines: u8, text: &[u8]) -> u8 {
    if lines < 2 && text.starts_with(b"\n") {
        lines + 1
    } else {
        lines
    }
}

fn push<'a>(
    out: &mut Vec<Piece<'a>>,
    kind: PieceKind,
    text: &'a [u8],
    lines: u8,
) -> Result<(), Memory>
    requires { IsWhole kind text.now }
    ensures tokens { OnOk result (tokens_of out.new.items ≡ tokens_of out.old.items ++ tokens_at kind text.now) }
    ensures bytes { OnOk result (marks_of out.new.items ≡ marks_of out.old.items ++ marks text.now) }
{
    out.push(Piece { kind, text, lines })?;
    Ok(())
}

/// The pieces of a text.
///
/// # Errors
///
/// The first fault of its tokens, or want of memory.
pub fn pieces(alloc: Global, text: &[u8]) -> Result<Vec<Piece<'_>>, LayoutFault>
    ensures made { IfOk result (λ out. ArePieces text.now out.items) }
    ensures refused { IfErr result (IsRefused text.now) }
{
    let mut out = Vec::new(alloc);
    let mut tokens = Tokens::new(text);
    let mut rest = text;
    let mut lines = 0u8;
    while let [_, ..] = rest {
        if starts_blank(rest) {
            lines = lines_behind(lines, rest);
            rest = behind_first(rest);
        } else if starts_comment(rest) {
            let (comment, behind) = rest.split_at(comment_len(rest));
            push(&mut out, PieceKind::Comment, trimmed(comment), lines)?;
            lines = 0;
            rest = behind;
        } else {
            match tokens.next() {
                Ok(Some(token)) => {
                    let (text, behind) = rest.split_at(token.text.len());
                    push(&mut out, PieceKind::Token(token.kind), text, lines)?;
                    lines = 0;
                    rest = behind;
                }
                Ok(None) => return Ok(out),
                Err(fault) => return Err(LayoutFault::Token(fault)),
            }
        }
    }
    Ok(out)
}
