//! Transitions by name: the label of a statement that has a transition, and for a cooperation `.entry` or `.exit` behind it.

ghost use Rattle.std.specs.Prelude.{◌≡◌, ◌≤◌, IfOk, map, slice_get};
ghost use Rattle.st_tokens.specs.Stream.{stream};
ghost use Rattle.st_reading.specs.Reading.{Reads, size};
ghost use Rattle.transition_system.specs.Plain.{plain_transition, plain_system};
ghost use Rattle.diagram_reader.specs.Faults.{see};
ghost use Rattle.diagram_reader.specs.Transitions.{owes_justice, is_just, transition_named, suffix_of, part_of, transition_of};

use crate::fault::DiagramFault;
use assertions::{labelled, part_named};
use st_form::{Part, TransName};
use st_program::NameTable;
use st_reading::{Mark, advance, ahead, is, is_name, name, name_ahead, refusal};
use st_tokens::Tokens;
use transition_system::{Fts, Transition};

/// The number of the transition that is that part of the statement with this label.
fn transition_named(names: &NameTable, fts: &Fts, label: &[u8], part: Part) -> Option<u32>
    ensures { result ≡ transition_named names.now (plain_system fts.now) label.now part }
{
    let occ = labelled(names, label)?;
    let _few = &fts.transitions;
    fts.find(TransName::Step { occ, part })
}

/// What stands behind a `.`.
#[tactic(auto, unfolding(crate::specs::Transitions::suffix_of))]
fn suffix(tokens: &mut Tokens) -> Result<Part, DiagramFault>
    ensures reads { Reads see (λ part. part) result (stream tokens.new) (suffix_of (stream tokens.old)) }
    ensures shrinks { IfOk result (λ _. size (stream tokens.new) ≤ size (stream tokens.old)) }
{
    if !is_name(ahead(tokens)) {
        return Err(DiagramFault::from(refusal(tokens)));
    }
    let Some(part) = part_named(name_ahead(tokens).text) else {
        return Err(DiagramFault::from(refusal(tokens)));
    };
    advance(tokens);
    Ok(part)
}

/// Which part of a statement is named.
#[tactic(auto, unfolding(crate::specs::Transitions::part_of))]
fn part(tokens: &mut Tokens) -> Result<Part, DiagramFault>
    ensures reads { Reads see (λ part. part) result (stream tokens.new) (part_of (stream tokens.old)) }
    ensures shrinks { IfOk result (λ _. size (stream tokens.new) ≤ size (stream tokens.old)) }
{
    if !is(ahead(tokens), Mark::Dot) {
        return Ok(Part::Whole);
    }
    advance(tokens);
    suffix(tokens)
}

fn is_just_among(transitions: &[Transition], number: u32) -> bool
    ensures { result ≡ owes_justice (slice_get (map (λ t. t.fairness) (map plain_transition transitions.now)) number) }
{
    match transitions.get(number as usize) {
        Some(transition) => transition.fairness.is_just(),
        None => false,
    }
}

/// Whether justice is owed to the transition with this number. A compassionate transition is just as well.
pub fn is_just(fts: &Fts, number: u32) -> bool
    ensures { result ≡ is_just (plain_system fts.now) number }
{
    is_just_among(&fts.transitions, number)
}

/// Reads the name of a transition, and gives its number in the system and the place of its first token.
///
/// It is judged when its last token is read: where no `.` stands behind the label, before what stands there.
#[tactic(auto, unfolding(crate::specs::Transitions::transition_of))]
pub fn read_transition(
    tokens: &mut Tokens<'_>,
    names: &NameTable,
    fts: &Fts,
) -> Result<(u32, u64), DiagramFault>
    ensures reads { Reads see (λ t. t) result (stream tokens.new) (transition_of names.now (plain_system fts.now) (stream tokens.old)) }
    ensures shrinks { IfOk result (λ _. size (stream tokens.new) ≤ size (stream tokens.old)) }
{
    let label = name(tokens)?;
    let part = part(tokens)?;
    match transition_named(names, fts, label.text, part) {
        Some(number) => Ok((number, label.place)),
        None => Err(DiagramFault::UnknownTransition(label.place)),
    }
}
