//! The nodes of a nested net: each stands in up to four groups, one inside the other.

ghost use Rattle.std.specs.Prelude.{◌≡◌, ◌≤◌, [], IfOk, map};
ghost use Rattle.st_tokens.specs.Stream.{stream};
ghost use Rattle.st_reading.specs.Reading.{Reads, size};
ghost use Rattle.temporal_goals.specs.Plain.{plain_level, plain_nested_node};
ghost use Rattle.proof_script.specs.Faults.{see};
ghost use Rattle.proof_script.specs.Listing.{setting_view};
ghost use Rattle.proof_script.specs.Rules.{nested_completed_of, group_level_of, group_levels_of, nested_node_of};

use crate::fault::{ScriptFault, ScriptKind};
use crate::items::ends_item;
use crate::lists::Item;
use crate::parts::{helper, weight};
use crate::setting::Setting;
use crate::units::{compassionate, listed_formula, sum};
use st_reading::{Mark, advance, ahead, expect, is, place_of, refusal};
use st_tokens::Tokens;
use std::alloc::Global;
use temporal_goals::{Level, NestedNode};

/// How many groups a node may stand in.
const GROUPS: usize = 4;

/// A group with its base and its top, behind `base`.
#[tactic(auto, unfolding(crate::specs::Rules::group_level_of))]
fn group_level(
    alloc: Global,
    setting: &Setting<'_>,
    tokens: &mut Tokens<'_>,
) -> Result<Level, ScriptFault>
    ensures reads { Reads see plain_level result (stream tokens.new) (group_level_of (setting_view setting.now) (stream tokens.old)) }
    ensures shrinks { IfOk result (λ _. size (stream tokens.new) ≤ size (stream tokens.old)) }
{
    let base = sum(alloc, setting, tokens)?;
    let top = weight(alloc, setting, Mark::Top, tokens)?;
    expect(tokens, Mark::Group)?;
    let group = compassionate(setting, tokens)?;
    Ok(Level { base, top, group })
}

/// The groups of a node, from the outermost on. Behind the fourth `delay` is wanted.
fn group_levels(
    alloc: Global,
    setting: &Setting<'_>,
    tokens: &mut Tokens<'_>,
) -> Result<Vec<Level>, ScriptFault>
    ensures reads { Reads see (λ v. map plain_level v.items) result (stream tokens.new) (group_levels_of (setting_view setting.now) 4 [] (stream tokens.old)) }
    ensures shrinks { IfOk result (λ _. size (stream tokens.new) ≤ size (stream tokens.old)) }
{
    let mut levels = Vec::new(alloc);
    let mut room = GROUPS;
    'groups: while room > 0 {
        if !is(ahead(tokens), Mark::Base) {
            return Ok(levels);
        }
        advance(tokens);
        let next = group_level(alloc, setting, tokens)?;
        levels.push(next)?;
        room -= 1;
    }
    Ok(levels)
}

/// A node that begins at the place, once its end has been seen: it has a group or a helper.
#[tactic(auto, unfolding(crate::specs::Rules::nested_completed_of))]
fn nested_completed(
    place: u64,
    node: NestedNode,
    tokens: &Tokens<'_>,
) -> Result<NestedNode, ScriptFault>
    ensures { Reads see plain_nested_node result (stream tokens.now) (nested_completed_of place (plain_nested_node node) (stream tokens.now)) }
{
    if !ends_item(ahead(tokens)) {
        return Err(ScriptFault::from(refusal(tokens)));
    }
    if node.levels.is_empty() && node.helper.is_none() {
        return Err(ScriptFault::At(ScriptKind::NoHelper, place));
    }
    Ok(node)
}

impl Item for NestedNode {
    ghost use Rattle.temporal_goals.specs.Texts.{PlainNestedNode};

    ghost Plain = { PlainNestedNode };

    ghost plainly = { plain_nested_node };

    ghost spelled = { nested_node_of };

    #[tactic(auto, unfolding(crate::specs::Rules::nested_node_of))]
    fn read(
        alloc: Global,
        setting: &Setting<'_>,
        before: usize,
        tokens: &mut Tokens<'_>,
    ) -> Result<Self, ScriptFault> {
        let place = place_of(tokens);
        let form = listed_formula(alloc, setting, before, tokens)?;
        let levels = group_levels(alloc, setting, tokens)?;
        let delay = weight(alloc, setting, Mark::Delay, tokens)?;
        let helper = helper(setting, tokens)?;
        let node = NestedNode {
            form,
            levels,
            delay,
            helper,
        };
        nested_completed(place, node, tokens)
    }
}
