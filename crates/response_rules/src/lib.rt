//! The short forms of a response: by one helper, by a chain of helpers, by ranks, and under the compassion of one transition
//! (Manna and Pnueli, *Temporal Verification of Reactive Systems: Progress*, rules RESP-J, CHAIN-J, WELL-J and RESP-C). Each is a
//! ranked net, with the refusals of one.
#![tactic(auto)]

ghost use Rattle.std.specs.Prelude.{◌≡◌, ◌<◌, ◌^◌, ◌∷◌, [], IfOk, length, map, pos};
ghost use Rattle.st_linear.specs.Linear.{number};
ghost use Rattle.st_form.specs.Plain.{plain};
ghost use Rattle.transition_system.specs.Plain.{plain_system};
ghost use Rattle.temporal_goals.specs.Plain.{plain_node, plain_net};
ghost use Rattle.rule_fits.specs.Fitting.{NodesFit};
ghost use Rattle.response_rules.specs.Forms.{plain_chain, plain_ranked, plain_fair, by_rank as by_rank_of, chain_nodes as chain_nodes_of, ranked_nodes as ranked_nodes_of, fair_under as fair_under_of, fair_nodes as fair_nodes_of, GivesNet};

use ranked_net::{NetFault, make_net};
use st_form::Form;
use st_linear::{Lin, LinFault};
use st_memory::Memory;
use std::alloc::Global;
use temporal_goals::{Net, Node};
use transition_system::Fts;

/// A small number as a form.
#[tactic(auto, unfolding(st_linear::specs::Linear::is_within, st_linear::specs::Linear::fitting))]
fn whole(alloc: Global, value: usize) -> Result<Lin, Memory>
    ensures { IfOk result (λ f. f ≡ number (pos value)) }
{
    match Lin::constant_of(alloc, value as i128) {
        Ok(form) => Ok(form),
        Err(LinFault::Memory) => Err(Memory),
        Err(LinFault::TooLarge) => unreachable!(),
    }
}

/// A node whose base and top are its rank.
fn by_rank(alloc: Global, form: Form, rank: Lin, helper: u32) -> Result<Node, Memory>
    ensures { IfOk result (λ n. plain_node n ≡ by_rank_of (plain form) rank helper) }
{
    let base = rank.copy(alloc)?;
    Ok(Node {
        form,
        base,
        delay: whole(alloc, 0)?,
        top: rank,
        group: None,
        helper: Some(helper),
    })
}

fn chain_nodes(alloc: Global, items: Vec<(Form, u32)>) -> Result<Vec<Node>, Memory>
    ensures { IfOk result (λ v. map plain_node v.items ≡ chain_nodes_of (plain_chain items.items)) }
{
    let mut behind = items.len();
    let mut nodes = Vec::with_capacity(alloc, behind)?;
    for (form, helper) in items {
        behind -= 1;
        let rank = whole(alloc, behind)?;
        nodes.push(by_rank(alloc, form, rank, helper)?)?;
    }
    Ok(nodes)
}

fn ranked_nodes(alloc: Global, items: Vec<(Form, Lin, u32)>) -> Result<Vec<Node>, Memory>
    ensures { IfOk result (λ v. map plain_node v.items ≡ ranked_nodes_of (plain_ranked items.items)) }
{
    let mut nodes = Vec::with_capacity(alloc, items.len())?;
    for (form, rank, helper) in items {
        nodes.push(by_rank(alloc, form, rank, helper)?)?;
    }
    Ok(nodes)
}

fn fair_nodes(
    alloc: Global,
    group: u32,
    items: Vec<(Form, Option<u32>)>,
) -> Result<Vec<Node>, Memory>
    ensures { IfOk result (λ v. map plain_node v.items ≡ fair_nodes_of group (plain_fair items.items)) }
{
    let top = items.len().saturating_sub(1);
    let mut behind = items.len();
    let mut nodes = Vec::with_capacity(alloc, behind)?;
    for (form, helper) in items {
        behind -= 1;
        nodes.push(Node {
            form,
            base: whole(alloc, 0)?,
            delay: whole(alloc, behind)?,
            top: whole(alloc, top)?,
            group: Some(group),
            helper,
        })?;
    }
    Ok(nodes)
}

fn single(alloc: Global, form: Form, helper: u32) -> Result<Vec<(Form, u32)>, Memory>
    ensures { IfOk result (λ v. v.items ≡ (form, helper) ∷ []) }
{
    Ok(vec![in alloc; (form, helper)]?)
}

/// The net of `by just FORM helper HELPER`: a chain of one item.
pub fn just(alloc: Global, fts: &Fts, form: Form, helper: u32) -> Result<Net, NetFault>
    ensures made { GivesNet result (plain_system fts.now) (chain_nodes_of ((plain form, helper) ∷ [])) }
    ensures fits { IfOk result (λ net. NodesFit (plain_system fts.now) (plain_net net)) }
{
    chain(alloc, fts, single(alloc, form, helper)?)
}

/// The net of `by chain [ FORM helper HELPER; .. ]`: with m items, item k has base and top m - k and no delay.
pub fn chain(alloc: Global, fts: &Fts, items: Vec<(Form, u32)>) -> Result<Net, NetFault>
    requires { length items.items < 2 ^ 32 }
    ensures made { GivesNet result (plain_system fts.now) (chain_nodes_of (plain_chain items.items)) }
    ensures fits { IfOk result (λ net. NodesFit (plain_system fts.now) (plain_net net)) }
{
    make_net(alloc, fts, chain_nodes(alloc, items)?)
}

/// The net of `by ranked [ FORM rank RANK helper HELPER; .. ]`: base and top are the rank, and there is no delay.
pub fn ranked(alloc: Global, fts: &Fts, items: Vec<(Form, Lin, u32)>) -> Result<Net, NetFault>
    requires { length items.items < 2 ^ 32 }
    ensures made { GivesNet result (plain_system fts.now) (ranked_nodes_of (plain_ranked items.items)) }
    ensures fits { IfOk result (λ net. NodesFit (plain_system fts.now) (plain_net net)) }
{
    make_net(alloc, fts, ranked_nodes(alloc, items)?)
}

/// The net of `by fair GROUP [ FORM helper HELPER; .. ]`: with m items, item k has base 0, delay m - k and top m - 1 in the group.
pub fn fair(
    alloc: Global,
    fts: &Fts,
    group: u32,
    items: Vec<(Form, Option<u32>)>,
) -> Result<Net, NetFault>
    requires { length items.items < 2 ^ 32 }
    ensures made { GivesNet result (plain_system fts.now) (fair_nodes_of group (plain_fair items.items)) }
    ensures fits { IfOk result (λ net. NodesFit (plain_system fts.now) (plain_net net)) }
{
    make_net(alloc, fts, fair_nodes(alloc, group, items)?)
}
