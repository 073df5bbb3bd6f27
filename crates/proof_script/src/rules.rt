//! How a response is proved.

ghost use Rattle.std.specs.Prelude.{◌≡◌, ◌≤◌, IfOk};
ghost use Rattle.st_tokens.specs.Stream.{stream};
ghost use Rattle.st_reading.specs.Reading.{Reads, size};
ghost use Rattle.temporal_goals.specs.Plain.{plain_rule};
ghost use Rattle.proof_script.specs.Faults.{see};
ghost use Rattle.proof_script.specs.Listing.{setting_view};
ghost use Rattle.proof_script.specs.Rules.{manner_in, kind_in, net_rule_of, response_diagram_of, ruled_of, rule_of};

use crate::fault::ScriptFault;
use crate::nets::{chain_net, fair_net, just_net, nested_net, ranked_net, written_net};
use crate::setting::Setting;
use diagram_reader::read_diagram;
use st_reading::{Mark, Sign, advance, ahead, is, refusal};
use st_tokens::Tokens;
use std::alloc::Global;
use temporal_goals::{DiagramKind, RuleText};

/// How a response is proved, by the token that says it.
#[derive(Clone, Copy, Debug, PartialEq, Eq)]
pub enum Manner {
    Just,
    Chain,
    Ranked,
    Fair,
    Net,
    Diagram,
}

/// The manner that begins so.
fn manner_in(sign: Sign) -> Option<Manner>
    ensures { result ≡ manner_in sign }
{
    if is(sign, Mark::Just) {
        Some(Manner::Just)
    } else if is(sign, Mark::Chain) {
        Some(Manner::Chain)
    } else if is(sign, Mark::Ranked) {
        Some(Manner::Ranked)
    } else if is(sign, Mark::Fair) {
        Some(Manner::Fair)
    } else if is(sign, Mark::Net) {
        Some(Manner::Net)
    } else if is(sign, Mark::Diagram) {
        Some(Manner::Diagram)
    } else {
        None
    }
}

/// The kind of a response's diagram that begins so.
fn kind_in(sign: Sign) -> Option<DiagramKind>
    ensures { result ≡ kind_in sign }
{
    if is(sign, Mark::Chain) {
        Some(DiagramKind::Chain)
    } else if is(sign, Mark::Rank) {
        Some(DiagramKind::Rank)
    } else {
        None
    }
}

/// A net, or behind `group` a nested one.
#[tactic(auto, unfolding(crate::specs::Rules::net_rule_of))]
fn net_rule(
    alloc: Global,
    setting: &Setting<'_>,
    tokens: &mut Tokens<'_>,
) -> Result<RuleText, ScriptFault>
    ensures reads { Reads see plain_rule result (stream tokens.new) (net_rule_of (setting_view setting.now) (stream tokens.old)) }
    ensures shrinks { IfOk result (λ _. size (stream tokens.new) ≤ size (stream tokens.old)) }
{
    if !is(ahead(tokens), Mark::Group) {
        return Ok(RuleText::Net(written_net(alloc, setting, tokens)?));
    }
    advance(tokens);
    Ok(RuleText::Nested(nested_net(alloc, setting, tokens)?))
}

/// A chain or rank diagram.
#[tactic(auto, unfolding(crate::specs::Rules::response_diagram_of))]
fn response_diagram(
    alloc: Global,
    setting: &Setting<'_>,
    tokens: &mut Tokens<'_>,
) -> Result<RuleText, ScriptFault>
    ensures reads { Reads see plain_rule result (stream tokens.new) (response_diagram_of (setting_view setting.now) (stream tokens.old)) }
    ensures shrinks { IfOk result (λ _. size (stream tokens.new) ≤ size (stream tokens.old)) }
{
    let Some(kind) = kind_in(ahead(tokens)) else {
        return Err(ScriptFault::from(refusal(tokens)));
    };
    advance(tokens);
    let diagram = read_diagram(alloc, tokens, kind, 0, setting.names, setting.fts)?;
    Ok(RuleText::Diagram(diagram))
}

/// A rule, behind the token that says its manner.
#[tactic(auto, unfolding(crate::specs::Rules::ruled_of))]
fn ruled(
    alloc: Global,
    setting: &Setting<'_>,
    manner: Manner,
    tokens: &mut Tokens<'_>,
) -> Result<RuleText, ScriptFault>
    ensures reads { Reads see plain_rule result (stream tokens.new) (ruled_of (setting_view setting.now) manner (stream tokens.old)) }
    ensures shrinks { IfOk result (λ _. size (stream tokens.new) ≤ size (stream tokens.old)) }
{
    match manner {
        Manner::Just => Ok(RuleText::Net(just_net(alloc, setting, tokens)?)),
        Manner::Chain => Ok(RuleText::Net(chain_net(alloc, setting, tokens)?)),
        Manner::Ranked => Ok(RuleText::Net(ranked_net(alloc, setting, tokens)?)),
        Manner::Fair => Ok(RuleText::Net(fair_net(alloc, setting, tokens)?)),
        Manner::Net => net_rule(alloc, setting, tokens),
        Manner::Diagram => response_diagram(alloc, setting, tokens),
    }
}

/// A rule of response.
#[tactic(auto, unfolding(crate::specs::Rules::rule_of))]
pub fn rule(
    alloc: Global,
    setting: &Setting<'_>,
    tokens: &mut Tokens<'_>,
) -> Result<RuleText, ScriptFault>
    ensures reads { Reads see plain_rule result (stream tokens.new) (rule_of (setting_view setting.now) (stream tokens.old)) }
    ensures shrinks { IfOk result (λ _. size (stream tokens.new) ≤ size (stream tokens.old)) }
{
    let Some(manner) = manner_in(ahead(tokens)) else {
        return Err(ScriptFault::from(refusal(tokens)));
    };
    advance(tokens);
    ruled(alloc, setting, manner, tokens)
}
