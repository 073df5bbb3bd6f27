//! The steps of a script: a name, a goal with its rule, and the earlier invariances that are cited.

ghost use Rattle.std.specs.Prelude.{◌≡◌, ◌≤◌, ◌<◌, ◌^◌, IfOk, length};
ghost use Rattle.st_tokens.specs.Stream.{stream};
ghost use Rattle.st_reading.specs.Reading.{Reads, size};
ghost use Rattle.st_program.specs.Names.{as_bytes};
ghost use Rattle.temporal_goals.specs.Plain.{plain_goal, plain_rule, plain_step};
ghost use Rattle.proof_script.specs.Faults.{see};
ghost use Rattle.proof_script.specs.Listing.{setting_view};
ghost use Rattle.proof_script.specs.Steps.{claim_in, claimed_of, step_of};

use crate::claims::{invariance, response};
use crate::fault::ScriptFault;
use crate::naming::{citations, new_name};
use crate::setting::Setting;
use crate::waits::waiting;
use indexmap::IndexMap;
use st_reading::{Mark, Sign, expect, is};
use st_tokens::Tokens;
use std::alloc::Global;
use temporal_goals::{Goal, RuleText, Step};

/// What a step claims, by its first token.
#[derive(Clone, Copy, Debug, PartialEq, Eq)]
pub enum Claim {
    Invariant,
    Waiting,
    Response,
}

/// The claim that begins so.
pub fn claim_in(sign: Sign) -> Option<Claim>
    ensures { result ≡ claim_in sign }
{
    if is(sign, Mark::Invariant) {
        Some(Claim::Invariant)
    } else if is(sign, Mark::Waiting) {
        Some(Claim::Waiting)
    } else if is(sign, Mark::Response) {
        Some(Claim::Response)
    } else {
        None
    }
}

/// A goal with its rule.
#[tactic(auto, unfolding(crate::specs::Steps::claimed_of))]
fn claimed(
    alloc: Global,
    setting: &Setting<'_>,
    claim: Claim,
    tokens: &mut Tokens<'_>,
) -> Result<(Goal, RuleText), ScriptFault>
    ensures reads { Reads see (λ c. (plain_goal c.0, plain_rule c.1)) result (stream tokens.new) (claimed_of (setting_view setting.now) claim (stream tokens.old)) }
    ensures shrinks { IfOk result (λ _. size (stream tokens.new) ≤ size (stream tokens.old)) }
{
    match claim {
        Claim::Invariant => invariance(alloc, setting, tokens),
        Claim::Waiting => waiting(alloc, setting, tokens),
        Claim::Response => response(alloc, setting, tokens),
    }
}

/// Reads a step, behind the token that says what is claimed.
#[tactic(auto, unfolding(crate::specs::Steps::step_of))]
pub fn step(
    alloc: Global,
    setting: &Setting<'_>,
    claim: Claim,
    earlier: &IndexMap<String, bool>,
    tokens: &mut Tokens<'_>,
) -> Result<Step, ScriptFault>
    requires { length earlier.now.entries < 2 ^ 32 }
    ensures reads { Reads see plain_step result (stream tokens.new) (step_of (setting_view setting.now) claim (as_bytes earlier.now.entries) (stream tokens.old)) }
    ensures shrinks { IfOk result (λ _. size (stream tokens.new) ≤ size (stream tokens.old)) }
{
    let name = new_name(alloc, earlier, tokens)?;
    expect(tokens, Mark::Colon)?;
    let (goal, rule) = claimed(alloc, setting, claim, tokens)?;
    let cited = citations(alloc, earlier, tokens)?;
    expect(tokens, Mark::Semicolon)?;
    Ok(Step {
        name,
        goal,
        rule,
        cited,
    })
}
