//! Goals with their rules: an invariance, and a response.

ghost use Rattle.std.specs.Prelude.{◌≡◌, ◌≤◌, IfOk};
ghost use Rattle.st_tokens.specs.Stream.{stream};
ghost use Rattle.st_reading.specs.Reading.{Reads, size};
ghost use Rattle.temporal_goals.specs.Plain.{plain_goal, plain_rule};
ghost use Rattle.proof_script.specs.Faults.{see};
ghost use Rattle.proof_script.specs.Listing.{setting_view};
ghost use Rattle.proof_script.specs.Steps.{invariance_of, response_of};

use crate::fault::ScriptFault;
use crate::rules::rule;
use crate::setting::Setting;
use crate::units::{formula, sum};
use st_reading::{Mark, advance, ahead, expect, is};
use st_tokens::Tokens;
use std::alloc::Global;
use temporal_goals::{Goal, RuleText};

/// An invariance, by itself or by a stronger formula.
#[tactic(auto, unfolding(crate::specs::Steps::invariance_of))]
pub fn invariance(
    alloc: Global,
    setting: &Setting<'_>,
    tokens: &mut Tokens<'_>,
) -> Result<(Goal, RuleText), ScriptFault>
    ensures reads { Reads see (λ c. (plain_goal c.0, plain_rule c.1)) result (stream tokens.new) (invariance_of (setting_view setting.now) (stream tokens.old)) }
    ensures shrinks { IfOk result (λ _. size (stream tokens.new) ≤ size (stream tokens.old)) }
{
    let form = formula(alloc, setting, tokens)?;
    if !is(ahead(tokens), Mark::By) {
        return Ok((Goal::Invariant(form), RuleText::Basic));
    }
    advance(tokens);
    let stronger = formula(alloc, setting, tokens)?;
    Ok((Goal::Invariant(form), RuleText::Stronger(stronger)))
}

/// A response, by its rule.
#[tactic(auto, unfolding(crate::specs::Steps::response_of))]
pub fn response(
    alloc: Global,
    setting: &Setting<'_>,
    tokens: &mut Tokens<'_>,
) -> Result<(Goal, RuleText), ScriptFault>
    ensures reads { Reads see (λ c. (plain_goal c.0, plain_rule c.1)) result (stream tokens.new) (response_of (setting_view setting.now) (stream tokens.old)) }
    ensures shrinks { IfOk result (λ _. size (stream tokens.new) ≤ size (stream tokens.old)) }
{
    let start = formula(alloc, setting, tokens)?;
    expect(tokens, Mark::Leads)?;
    let end = formula(alloc, setting, tokens)?;
    expect(tokens, Mark::Within)?;
    let bound = sum(alloc, setting, tokens)?;
    expect(tokens, Mark::By)?;
    let rule = rule(alloc, setting, tokens)?;
    Ok((Goal::Response(start, end, bound), rule))
}
