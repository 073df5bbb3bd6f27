//! A program and a proof in one text, parted by a line `proof`.
#![tactic(auto)]

ghost use Rattle.std.specs.Prelude.{◌≡◌, ◌++◌, IfOk, IfSome, map};
ghost use Rattle.source_parts.specs.Parts.{blank, IsParted};

use st_memory::Memory;
use std::alloc::Global;

/// A program and a proof that stood in one text.
#[derive(Drop)]
pub struct Parts<'a> {
    pub program: &'a [u8],
    /// The proof at the place where it stood: what was before it is blanks, in as many lines, so that places in it are
    /// places of the whole text.
    pub proof: Vec<u8>,
}

fn is_parting(line: &[u8]) -> bool {
    line.trim_ascii() == b"proof".as_slice()
}

/// The place of the first line `proof`, blanks apart, and the place behind it; both are the end where there is none.
fn parting(text: &[u8]) -> (usize, usize) {
    let mut begin = 0usize;
    let mut end = 0usize;
    for line in text.split_inclusive(|byte| *byte == b'\n') {
        begin = end;
        end = end.saturating_add(line.len());
        if is_parting(line) {
            return (begin, end);
        }
    }
    (text.len(), text.len())
}

fn blank(byte: u8) -> u8
    ensures { result ≡ blank byte }
{
    if byte == b'\n' { b'\n' } else { b' ' }
}

fn blanked(alloc: Global, front: &[u8], behind: &[u8]) -> Result<Vec<u8>, Memory>
    ensures { IfOk result (λ text. text.items ≡ map blank front.now ++ behind.now) }
{
    let mut text = Vec::new(alloc);
    for byte in front {
        text.push(blank(*byte))?;
    }
    text.extend_from_slice(behind)?;
    Ok(text)
}

/// The parts of a text in which a line stands that is `proof`, blanks apart; the first such line parts it.
pub fn parted<'a>(alloc: Global, text: &'a [u8]) -> Result<Option<Parts<'a>>, Memory>
    ensures { IfOk result (λ found. IfSome found (λ parts. IsParted text.entry.now parts.program.now parts.proof.items)) }
{
    let (begin, end) = parting(text);
    if begin == end {
        return Ok(None);
    }
    let (front, behind) = text.split_at(end.min(text.len()));
    let program = front.split_at(begin.min(front.len())).0;
    let proof = blanked(alloc, front, behind)?;
    Ok(Some(Parts { program, proof }))
}
