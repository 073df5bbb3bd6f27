//! The parts of an item behind their marks: a helper, a group, an integer expression.

ghost use Rattle.std.specs.Prelude.{◌≡◌, ◌≤◌, IfOk};
ghost use Rattle.st_tokens.specs.Stream.{stream};
ghost use Rattle.st_reading.specs.Reading.{Reads, size};
ghost use Rattle.proof_script.specs.Faults.{see};
ghost use Rattle.proof_script.specs.Listing.{setting_view};
ghost use Rattle.proof_script.specs.Rules.{wanted_helper_of, helper_of, group_of, weight_of};

use crate::fault::ScriptFault;
use crate::setting::Setting;
use crate::units::{compassionate, just, sum};
use st_form::Lin;
use st_reading::{Mark, advance, ahead, expect, is};
use st_tokens::Tokens;
use std::alloc::Global;

/// A helper, which has to be given.
#[tactic(auto, unfolding(crate::specs::Rules::wanted_helper_of))]
pub fn wanted_helper(setting: &Setting<'_>, tokens: &mut Tokens<'_>) -> Result<u32, ScriptFault>
    ensures reads { Reads see (λ h. h) result (stream tokens.new) (wanted_helper_of (setting_view setting.now) (stream tokens.old)) }
    ensures shrinks { IfOk result (λ _. size (stream tokens.new) ≤ size (stream tokens.old)) }
{
    expect(tokens, Mark::Helper)?;
    just(setting, tokens)
}

/// A helper, if one is given.
#[tactic(auto, unfolding(crate::specs::Rules::helper_of))]
pub fn helper(setting: &Setting<'_>, tokens: &mut Tokens<'_>) -> Result<Option<u32>, ScriptFault>
    ensures reads { Reads see (λ h. h) result (stream tokens.new) (helper_of (setting_view setting.now) (stream tokens.old)) }
    ensures shrinks { IfOk result (λ _. size (stream tokens.new) ≤ size (stream tokens.old)) }
{
    if !is(ahead(tokens), Mark::Helper) {
        return Ok(None);
    }
    advance(tokens);
    Ok(Some(just(setting, tokens)?))
}

/// A group, if one is given.
#[tactic(auto, unfolding(crate::specs::Rules::group_of))]
pub fn group(setting: &Setting<'_>, tokens: &mut Tokens<'_>) -> Result<Option<u32>, ScriptFault>
    ensures reads { Reads see (λ h. h) result (stream tokens.new) (group_of (setting_view setting.now) (stream tokens.old)) }
    ensures shrinks { IfOk result (λ _. size (stream tokens.new) ≤ size (stream tokens.old)) }
{
    if !is(ahead(tokens), Mark::Group) {
        return Ok(None);
    }
    advance(tokens);
    Ok(Some(compassionate(setting, tokens)?))
}

/// An integer expression behind the mark.
#[tactic(auto, unfolding(crate::specs::Rules::weight_of))]
pub fn weight(
    alloc: Global,
    setting: &Setting<'_>,
    mark: Mark,
    tokens: &mut Tokens<'_>,
) -> Result<Lin, ScriptFault>
    ensures reads { Reads see (λ f. f) result (stream tokens.new) (weight_of (setting_view setting.now) mark (stream tokens.old)) }
    ensures shrinks { IfOk result (λ _. size (stream tokens.new) ≤ size (stream tokens.old)) }
{
    expect(tokens, mark)?;
    sum(alloc, setting, tokens)
}
