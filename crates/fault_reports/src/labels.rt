//! The labels of a program, as far as a glance tells where control is that stands at them.

use crate::source::{Source, word_of};
use st_memory::Memory;
use std::alloc::Global;

/// Where control is that stands at a label: at a statement of a process, behind its last one, or in a child of a cooperation.
#[derive(Clone, Copy, PartialEq, Eq)]
pub(crate) enum Stand {
    Statement,
    End,
    Child,
}

/// A label of a program, the number of its process, and where it stands.
#[derive(Drop)]
pub(crate) struct Label<'a> {
    pub name: &'a str,
    pub process: usize,
    pub stand: Stand,
}

/// Whether a word opens a bracket (1), closes one (-1), or neither.
fn turn(word: &str) -> isize {
    match word {
        "[" | "(" => 1,
        "]" | ")" => -1,
        _ => 0,
    }
}

/// Whether a word begins a cooperation (1), ends one (-1), or neither.
fn turn_inside(word: &str) -> isize {
    match word {
        "cobegin" => 1,
        "coend" => -1,
        _ => 0,
    }
}

/// Where a label stands before which so many brackets and cooperations are open, by the word behind its colon; `None` where it names
/// the location of another label.
fn stand_of(behind: &str, depth: isize, inside: isize) -> Option<Stand> {
    match behind {
        _ if inside != 0 => Some(Stand::Child),
        "]" if depth == 1 => Some(Stand::End),
        "[" | "]" | "||" | "" => None,
        _ => Some(Stand::Statement),
    }
}

/// The labels of a program, whose processes stand at one label each or at none; `None` where that isn't seen: where two labels name one
/// location, as with selections and labelled blocks.
pub(crate) fn plain_labels<'a>(
    alloc: Global,
    source: &Source<'a>,
) -> Result<Option<Vec<Label<'a>>>, Memory> {
    let mut out = Vec::new(alloc);
    let (mut depth, mut inside): (isize, isize) = (0, 0);
    let mut process: usize = 0;
    for (at, token) in source.tokens.iter().enumerate() {
        let name = word_of(token);
        depth = depth.saturating_add(turn(name));
        inside = inside.saturating_add(turn_inside(name));
        if name == "select" || name == "or" {
            return Ok(None);
        }
        if name == "||" && inside == 0 {
            if depth != 0 {
                return Ok(None);
            }
            process = process.saturating_add(1);
        }
        if source.word(at.saturating_add(1)) == ":" {
            let behind = source.word(at.saturating_add(2));
            let Some(stand) = stand_of(behind, depth, inside) else {
                return Ok(None);
            };
            out.push(Label {
                name,
                process,
                stand,
            })?;
        }
    }
    Ok(Some(out))
}
