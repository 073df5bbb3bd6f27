//! Nodes: in a rank diagram with a rank, and in a chain or rank diagram with a helper.

ghost use Rattle.std.specs.Prelude.{◌≡◌, map, ◌≤◌, IfOk};
ghost use Rattle.st_tokens.specs.Stream.{stream};
ghost use Rattle.st_reading.specs.Reading.{Reads, size};
ghost use Rattle.temporal_goals.specs.Plain.{plain_drawn_node};
ghost use Rattle.diagram_reader.specs.Faults.{see};
ghost use Rattle.diagram_reader.specs.Drawn.{setting_view};
ghost use Rattle.diagram_reader.specs.Drawing.{new_number_of, rank_of, just_of, helper_of, numbered_node_of, node_of};

use crate::drawing::{NODES, has_helpers, has_ranks, is_above, is_known};
use crate::fault::DiagramFault;
use crate::setting::Setting;
use crate::transition::{is_just, read_transition};
use crate::unit::{formula, sum};
use st_form::Lin;
use st_reading::{Mark, advance, ahead, expect, is, numeral};
use st_tokens::Tokens;
use std::alloc::Global;
use temporal_goals::DiagramNode;

/// The number of a new node, and its place.
#[tactic(auto, unfolding(crate::specs::Drawing::new_number_of))]
fn new_number(
    setting: &Setting<'_>,
    nodes: &[DiagramNode],
    tokens: &mut Tokens<'_>,
) -> Result<(u32, u64), DiagramFault>
    ensures reads { Reads see (λ n. n) result (stream tokens.new) (new_number_of (setting_view setting.now) (map plain_drawn_node nodes.now) (stream tokens.old)) }
    ensures shrinks { IfOk result (λ _. size (stream tokens.new) ≤ size (stream tokens.old)) }
{
    let (number, place) = numeral(tokens)?;
    if is_known(number, nodes) {
        return Err(DiagramFault::Twice(place));
    }
    if is_above(setting.kind, setting.levels, number) {
        return Err(DiagramFault::UnknownNode(place));
    }
    Ok((number, place))
}

/// The rank of a node, in a rank diagram.
#[tactic(auto, unfolding(crate::specs::Drawing::rank_of))]
fn rank(
    alloc: Global,
    setting: &Setting<'_>,
    tokens: &mut Tokens<'_>,
) -> Result<Option<Lin>, DiagramFault>
    ensures reads { Reads see (λ r. r) result (stream tokens.new) (rank_of (setting_view setting.now) (stream tokens.old)) }
    ensures shrinks { IfOk result (λ _. size (stream tokens.new) ≤ size (stream tokens.old)) }
{
    if !has_ranks(setting.kind) {
        return Ok(None);
    }
    expect(tokens, Mark::Rank)?;
    Ok(Some(sum(alloc, setting, tokens)?))
}

/// A transition that is just.
#[tactic(auto, unfolding(crate::specs::Drawing::just_of))]
fn just(setting: &Setting<'_>, tokens: &mut Tokens<'_>) -> Result<u32, DiagramFault>
    ensures reads { Reads see (λ h. h) result (stream tokens.new) (just_of (setting_view setting.now) (stream tokens.old)) }
    ensures shrinks { IfOk result (λ _. size (stream tokens.new) ≤ size (stream tokens.old)) }
{
    let (number, place) = read_transition(tokens, setting.names, setting.fts)?;
    if !is_just(setting.fts, number) {
        return Err(DiagramFault::UnfairHelper(place));
    }
    Ok(number)
}

/// The helper of a node, in a chain or rank diagram.
#[tactic(auto, unfolding(crate::specs::Drawing::helper_of))]
fn helper(setting: &Setting<'_>, tokens: &mut Tokens<'_>) -> Result<Option<u32>, DiagramFault>
    ensures reads { Reads see (λ h. h) result (stream tokens.new) (helper_of (setting_view setting.now) (stream tokens.old)) }
    ensures shrinks { IfOk result (λ _. size (stream tokens.new) ≤ size (stream tokens.old)) }
{
    if !has_helpers(setting.kind) {
        return Ok(None);
    }
    if !is(ahead(tokens), Mark::Helper) {
        return Ok(None);
    }
    advance(tokens);
    Ok(Some(just(setting, tokens)?))
}

/// A node, from its number on.
#[tactic(auto, unfolding(crate::specs::Drawing::numbered_node_of))]
fn numbered_node(
    alloc: Global,
    setting: &Setting<'_>,
    nodes: &[DiagramNode],
    tokens: &mut Tokens<'_>,
) -> Result<DiagramNode, DiagramFault>
    ensures reads { Reads see plain_drawn_node result (stream tokens.new) (numbered_node_of (setting_view setting.now) (map plain_drawn_node nodes.now) (stream tokens.old)) }
    ensures shrinks { IfOk result (λ _. size (stream tokens.new) ≤ size (stream tokens.old)) }
{
    let (number, place) = new_number(setting, nodes, tokens)?;
    expect(tokens, Mark::Colon)?;
    let form = formula(alloc, setting, tokens)?;
    let rank = rank(alloc, setting, tokens)?;
    let helper = helper(setting, tokens)?;
    expect(tokens, Mark::Semicolon)?;
    if has_helpers(setting.kind) && helper.is_none() {
        return Err(DiagramFault::NoHelper(place));
    }
    Ok(DiagramNode {
        number,
        form,
        rank,
        helper,
    })
}

/// A node behind `node`, which stands at the place, and behind the nodes that were read before.
#[tactic(auto, unfolding(crate::specs::Drawing::node_of))]
pub fn node(
    alloc: Global,
    setting: &Setting<'_>,
    place: u64,
    nodes: &[DiagramNode],
    tokens: &mut Tokens<'_>,
) -> Result<DiagramNode, DiagramFault>
    ensures reads { Reads see plain_drawn_node result (stream tokens.new) (node_of (setting_view setting.now) place (map plain_drawn_node nodes.now) (stream tokens.old)) }
    ensures shrinks { IfOk result (λ _. size (stream tokens.new) ≤ size (stream tokens.old)) }
{
    if nodes.len() >= NODES {
        return Err(DiagramFault::Nodes(place));
    }
    numbered_node(alloc, setting, nodes, tokens)
}
