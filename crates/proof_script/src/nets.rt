//! The nets of the rules of response. What is read for them breaks no rule of a net, so making one wants nothing but memory.

ghost use Rattle.std.specs.Prelude.{◌≡◌, ◌≤◌, IfOk};
ghost use Rattle.std.specs.Result.{ForErr};
ghost use Rattle.st_tokens.specs.Stream.{stream};
ghost use Rattle.st_reading.specs.Reading.{Reads, size};
ghost use Rattle.temporal_goals.specs.Plain.{plain_net, plain_nested};
ghost use Rattle.ranked_net.specs.declared.faults.NetFault.TheVariants as faults;
ghost use Rattle.nested_net.specs.declared.faults.NestedFault.TheVariants as nested_faults;
ghost use Rattle.proof_script.specs.Faults.{see};
ghost use Rattle.proof_script.specs.Listing.{setting_view};
ghost use Rattle.proof_script.specs.Rules.{just_nodes_of, chain_nodes_of, ranked_nodes_of, fair_nodes_of, nodes_of, nested_nodes_of};

use crate::fault::ScriptFault;
use crate::lists::{Item, bracketed};
use crate::setting::Setting;
use crate::units::compassionate;
use nested_net::{NestedFault, make_nested};
use ranked_net::{NetFault, make_net};
use response_rules::{chain, fair, just, ranked};
use st_form::Form;
use st_memory::Memory;
use st_tokens::Tokens;
use std::alloc::Global;
use temporal_goals::{NestedNet, Net};

/// The net that was made, where no node breaks a rule.
fn made(net: Result<Net, NetFault>) -> Result<Net, Memory>
    requires { ForErr net (λ fault. fault ≡ faults.Memory) }
    ensures { IfOk result (λ n. net ≡ Ok n) }
{
    match net {
        Ok(net) => Ok(net),
        Err(NetFault::Memory) => Err(Memory),
        Err(_) => unreachable!(),
    }
}

/// The same of a nested net.
fn made_nested(net: Result<NestedNet, NestedFault>) -> Result<NestedNet, Memory>
    requires { ForErr net (λ fault. fault ≡ nested_faults.Memory) }
    ensures { IfOk result (λ n. net ≡ Ok n) }
{
    match net {
        Ok(net) => Ok(net),
        Err(NestedFault::Memory) => Err(Memory),
        Err(_) => unreachable!(),
    }
}

/// The net of one helper.
#[tactic(auto, unfolding(crate::specs::Rules::just_nodes_of))]
pub fn just_net(
    alloc: Global,
    setting: &Setting<'_>,
    tokens: &mut Tokens<'_>,
) -> Result<Net, ScriptFault>
    ensures reads { Reads see plain_net result (stream tokens.new) (just_nodes_of (setting_view setting.now) (stream tokens.old)) }
    ensures shrinks { IfOk result (λ _. size (stream tokens.new) ≤ size (stream tokens.old)) }
{
    let (form, helper) = <(Form, u32)>::read(alloc, setting, 0, tokens)?;
    Ok(made(just(alloc, setting.fts, form, helper))?)
}

/// The net of a chain of helpers.
#[tactic(auto, unfolding(crate::specs::Rules::chain_nodes_of))]
pub fn chain_net(
    alloc: Global,
    setting: &Setting<'_>,
    tokens: &mut Tokens<'_>,
) -> Result<Net, ScriptFault>
    ensures reads { Reads see plain_net result (stream tokens.new) (chain_nodes_of (setting_view setting.now) (stream tokens.old)) }
    ensures shrinks { IfOk result (λ _. size (stream tokens.new) ≤ size (stream tokens.old)) }
{
    let items = bracketed(alloc, setting, tokens)?;
    Ok(made(chain(alloc, setting.fts, items))?)
}

/// The net of helpers with ranks.
#[tactic(auto, unfolding(crate::specs::Rules::ranked_nodes_of))]
pub fn ranked_net(
    alloc: Global,
    setting: &Setting<'_>,
    tokens: &mut Tokens<'_>,
) -> Result<Net, ScriptFault>
    ensures reads { Reads see plain_net result (stream tokens.new) (ranked_nodes_of (setting_view setting.now) (stream tokens.old)) }
    ensures shrinks { IfOk result (λ _. size (stream tokens.new) ≤ size (stream tokens.old)) }
{
    let items = bracketed(alloc, setting, tokens)?;
    Ok(made(ranked(alloc, setting.fts, items))?)
}

/// The net of one compassionate transition.
#[tactic(auto, unfolding(crate::specs::Rules::fair_nodes_of))]
pub fn fair_net(
    alloc: Global,
    setting: &Setting<'_>,
    tokens: &mut Tokens<'_>,
) -> Result<Net, ScriptFault>
    ensures reads { Reads see plain_net result (stream tokens.new) (fair_nodes_of (setting_view setting.now) (stream tokens.old)) }
    ensures shrinks { IfOk result (λ _. size (stream tokens.new) ≤ size (stream tokens.old)) }
{
    let group = compassionate(setting, tokens)?;
    let items = bracketed(alloc, setting, tokens)?;
    Ok(made(fair(alloc, setting.fts, group, items))?)
}

/// The net whose nodes are written out.
#[tactic(auto, unfolding(crate::specs::Rules::nodes_of))]
pub fn written_net(
    alloc: Global,
    setting: &Setting<'_>,
    tokens: &mut Tokens<'_>,
) -> Result<Net, ScriptFault>
    ensures reads { Reads see plain_net result (stream tokens.new) (nodes_of (setting_view setting.now) (stream tokens.old)) }
    ensures shrinks { IfOk result (λ _. size (stream tokens.new) ≤ size (stream tokens.old)) }
{
    let nodes = bracketed(alloc, setting, tokens)?;
    Ok(made(make_net(alloc, setting.fts, nodes))?)
}

/// The nested net whose nodes are written out.
#[tactic(auto, unfolding(crate::specs::Rules::nested_nodes_of))]
pub fn nested_net(
    alloc: Global,
    setting: &Setting<'_>,
    tokens: &mut Tokens<'_>,
) -> Result<NestedNet, ScriptFault>
    ensures reads { Reads see plain_nested result (stream tokens.new) (nested_nodes_of (setting_view setting.now) (stream tokens.old)) }
    ensures shrinks { IfOk result (λ _. size (stream tokens.new) ≤ size (stream tokens.old)) }
{
    let nodes = bracketed(alloc, setting, tokens)?;
    Ok(made_nested(make_nested(alloc, setting.fts, nodes))?)
}
