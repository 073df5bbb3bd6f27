//! The action of a claim that nothing shows: a search for the steps that it needs. It is offered without a search, which runs when the
//! action is chosen; its edit makes of the proof the text that `milkhour find` writes.

use crate::changes::{ActionData, OfferedAction, ResolvedAction, TextEdit, WorkspaceEdit};
use crate::places::{place, position, slice};
use crate::protocol::{Position, Range};
use crate::texts::{Pair, Source};
use crate::verdicts::Verdicts;
use source_lines::Lines;
use source_places::{Span, StepPlaces, step_places};
use st_memory::Memory;
use std::alloc::Global;
use std::collections::BTreeMap;
use std::str;

const TITLE: &str = "Find invariants";

/// The kind of all actions of this server.
pub const KIND: &str = "quickfix";

/// Whether a step leaves it to `find` how it is shown.
fn is_bare(text: &[u8], step: &StepPlaces) -> bool {
    match step.by {
        Some(by) => slice(text, by) == b"find".as_slice(),
        None => step.using.is_empty(),
    }
}

/// Whether a step is known to be proved.
fn is_proved(verdicts: &Verdicts, proof: &Source, step: &StepPlaces) -> bool {
    let name = slice(proof.text.as_slice(), step.name);
    match verdicts.of(proof.uri.as_str(), name) {
        Some(report) => report.failing == 0,
        None => false,
    }
}

fn reaches(whole: Span, place: u64) -> bool {
    whole.from <= place && place <= whole.to
}

/// Whether a step at this position asks for a search.
fn asks(alloc: Global, verdicts: &Verdicts, proof: &Source, at: Position) -> Result<bool, Memory> {
    let text = proof.text.as_slice();
    let lines = Lines::new(alloc, text)?;
    let place = place(&lines, at);
    for step in &step_places(alloc, text)? {
        if reaches(step.whole, place) && is_bare(text, step) {
            return Ok(!is_proved(verdicts, proof, step));
        }
    }
    Ok(false)
}

/// The actions at a position of a file.
pub fn actions(
    alloc: Global,
    pair: &Pair,
    verdicts: &Verdicts,
    uri: &str,
    at: Position,
) -> Result<Vec<OfferedAction>, Memory> {
    let mut out = Vec::new(alloc);
    if let Some(proof) = &pair.proof
        && proof.uri.as_str() == uri
        && asks(alloc, verdicts, proof, at)?
    {
        out.push(OfferedAction {
            title: TITLE,
            kind: KIND,
            data: ActionData {
                uri: String::from_str(alloc, uri)?,
            },
        })?;
    }
    Ok(out)
}

/// Where the first line begins in which two texts differ: its number, and how many bytes stand before it.
#[derive(Clone, Copy)]
struct Parting {
    line: u64,
    from: usize,
}

fn first_difference(old: &[u8], new: &[u8]) -> Parting {
    let mut parting = Parting { line: 0, from: 0 };
    for (place, (before, behind)) in old.iter().zip(new.iter()).enumerate() {
        if *before != *behind {
            break;
        }
        if *before == b'\n' {
            parting = Parting {
                line: parting.line.saturating_add(1),
                from: place.saturating_add(1),
            };
        }
    }
    parting
}

/// The edit that makes one text of the other, from the first line on in which they differ; none where the new text isn't UTF-8.
fn edit(alloc: Global, old: &[u8], new: &[u8]) -> Result<Option<TextEdit>, Memory> {
    let parting = first_difference(old, new);
    let Ok(rest) = str::from_utf8(new.split_at(parting.from.min(new.len())).1) else {
        return Ok(None);
    };
    let lines = Lines::new(alloc, old)?;
    Ok(Some(TextEdit {
        range: Range {
            start: Position {
                line: parting.line,
                character: 0,
            },
            end: position(&lines, old.len() as u64),
        },
        new_text: String::from_str(alloc, rest)?,
    }))
}

/// The action with the edit that puts a found text in the place of a proof.
pub fn resolved(
    alloc: Global,
    proof: &Source,
    found: &[u8],
) -> Result<Option<ResolvedAction>, Memory> {
    let Some(edit) = edit(alloc, proof.text.as_slice(), found)? else {
        return Ok(None);
    };
    let mut changes = BTreeMap::new(alloc);
    changes.insert(proof.uri.clone()?, vec![in alloc; edit]?)?;
    Ok(Some(ResolvedAction {
        title: TITLE,
        kind: KIND,
        edit: WorkspaceEdit { changes },
    }))
}
