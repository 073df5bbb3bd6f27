//! Edges: from a node to a node, on transitions.

ghost use Rattle.std.specs.Prelude.{◌≡◌, map, ◌≤◌, IfOk};
ghost use Rattle.st_tokens.specs.Stream.{stream};
ghost use Rattle.st_reading.specs.declared.mark.Mark.TheVariants as marks;
ghost use Rattle.st_reading.specs.Reading.{Reads, further, size};
ghost use Rattle.temporal_goals.specs.Plain.{plain_drawn_node, plain_edge};
ghost use Rattle.diagram_reader.specs.Faults.{see};
ghost use Rattle.diagram_reader.specs.Drawn.{setting_view};
ghost use Rattle.diagram_reader.specs.Drawing.{known_of, transition_number_of, numbers_of, edge_of};

use crate::drawing::{is_known, is_upward};
use crate::fault::DiagramFault;
use crate::setting::Setting;
use crate::transition::read_transition;
use st_reading::{Mark, advance, ahead, expect, is, numeral};
use st_tokens::Tokens;
use std::alloc::Global;
use temporal_goals::{DiagramNode, Edge};

/// The number of a node that is known.
#[tactic(auto, unfolding(crate::specs::Drawing::known_of))]
fn known(nodes: &[DiagramNode], tokens: &mut Tokens<'_>) -> Result<u32, DiagramFault>
    ensures reads { Reads see (λ n. n) result (stream tokens.new) (known_of (map plain_drawn_node nodes.now) (stream tokens.old)) }
    ensures shrinks { IfOk result (λ _. size (stream tokens.new) ≤ size (stream tokens.old)) }
{
    let (number, place) = numeral(tokens)?;
    if !is_known(number, nodes) {
        return Err(DiagramFault::UnknownNode(place));
    }
    Ok(number)
}

/// A transition, by its number.
#[tactic(auto, unfolding(crate::specs::Drawing::transition_number_of))]
fn transition_number(setting: &Setting<'_>, tokens: &mut Tokens<'_>) -> Result<u32, DiagramFault>
    ensures reads { Reads see (λ n. n) result (stream tokens.new) (transition_number_of (setting_view setting.now) (stream tokens.old)) }
    ensures shrinks { IfOk result (λ _. size (stream tokens.new) ≤ size (stream tokens.old)) }
{
    let (number, _) = read_transition(tokens, setting.names, setting.fts)?;
    Ok(number)
}

/// Further transitions behind commas.
fn further_numbers(
    setting: &Setting<'_>,
    mut numbers: Vec<u32>,
    tokens: &mut Tokens<'_>,
) -> Result<Vec<u32>, DiagramFault>
    ensures reads { Reads see (λ v. v.items) result (stream tokens.new) (further marks.Comma (transition_number_of (setting_view setting.now)) numbers.items (stream tokens.old)) }
    ensures shrinks { IfOk result (λ _. size (stream tokens.new) ≤ size (stream tokens.old)) }
{
    'chain: while is(ahead(tokens), Mark::Comma) {
        advance(tokens);
        let next = transition_number(setting, tokens)?;
        numbers.push(next)?;
    }
    Ok(numbers)
}

/// Transitions with commas between them.
#[tactic(auto, unfolding(crate::specs::Drawing::numbers_of))]
fn numbers(
    alloc: Global,
    setting: &Setting<'_>,
    tokens: &mut Tokens<'_>,
) -> Result<Vec<u32>, DiagramFault>
    ensures reads { Reads see (λ v. v.items) result (stream tokens.new) (numbers_of (setting_view setting.now) (stream tokens.old)) }
    ensures shrinks { IfOk result (λ _. size (stream tokens.new) ≤ size (stream tokens.old)) }
{
    let first = transition_number(setting, tokens)?;
    let mut numbers = Vec::new(alloc);
    numbers.push(first)?;
    further_numbers(setting, numbers, tokens)
}

/// An edge behind `edge`, which stands at the place, and behind the nodes that were read before.
#[tactic(auto, unfolding(crate::specs::Drawing::edge_of))]
pub fn edge(
    alloc: Global,
    setting: &Setting<'_>,
    place: u64,
    nodes: &[DiagramNode],
    tokens: &mut Tokens<'_>,
) -> Result<Edge, DiagramFault>
    ensures reads { Reads see plain_edge result (stream tokens.new) (edge_of (setting_view setting.now) place (map plain_drawn_node nodes.now) (stream tokens.old)) }
    ensures shrinks { IfOk result (λ _. size (stream tokens.new) ≤ size (stream tokens.old)) }
{
    let from = known(nodes, tokens)?;
    expect(tokens, Mark::Implies)?;
    let to = known(nodes, tokens)?;
    if is_upward(setting.kind, from, to) {
        return Err(DiagramFault::Upward(place));
    }
    expect(tokens, Mark::On)?;
    let on = numbers(alloc, setting, tokens)?;
    expect(tokens, Mark::Semicolon)?;
    Ok(Edge { from, to, on })
}
