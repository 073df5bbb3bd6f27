//! The conditions of a ranked net: that a node is on where the response begins, each node's numbers, its helpers, and where each
//! mode leads from it.

ghost use Rattle.std.specs.Prelude.{◌<◌, ◌^◌, map, length};
ghost use Rattle.st_form.specs.Plain.{plain};
ghost use Rattle.temporal_goals.specs.Plain.{plain_node};
ghost use Rattle.vc_generator.specs.Asked.{system_of, lemmas_of};
ghost use Rattle.vc_generator.specs.Plain.{plain_list};
ghost use Rattle.vc_generator.specs.Refusing.{Grows};
ghost use Rattle.vc_generator.specs.Walks.{numbered_from};
ghost use Rattle.rule_laws.specs.RankedNet.{rank_of, help_of, move_of, ranked_list};
ghost use Rattle.rule_fits.specs.Fitting.{CanFall};
ghost use Rattle.ranked_net.specs.Asked.{NodesCanFall};

use crate::forms::{cover_form, helped_form, ranked_form};
use crate::moving::move_from;
use st_form::{Form, Premise};
use st_linear::Lin;
use temporal_goals::Node;
use vc_generator::{Asking, Conditions, VcFault, entails, plainly};

/// The numbers of each node.
fn push_ranks(asking: &Asking<'_>, nodes: &[Node], out: &mut Conditions) -> Result<(), VcFault>
    requires few { length nodes.now < 2 ^ 32 }
    ensures { Grows result (plain_list out.old) (plain_list out.new) (numbered_from (rank_of asking.now.step (lemmas_of asking.now)) 0 (map plain_node nodes.now)) }
{
    for index in 0..nodes.len() {
        let node = &nodes[index];
        let name = plainly(asking.step, Premise::Rank, Some(index as u32));
        let shown = ranked_form(asking.alloc, node)?;
        entails(asking.alloc, asking.lemmas, &node.form, &shown, name, out)?;
    }
    Ok(())
}

/// The helper or the group of each node.
fn push_helps(asking: &Asking<'_>, nodes: &[Node], out: &mut Conditions) -> Result<(), VcFault>
    requires few { length nodes.now < 2 ^ 32 }
    ensures { Grows result (plain_list out.old) (plain_list out.new) (numbered_from (help_of asking.now.step (system_of asking.now) (lemmas_of asking.now)) 0 (map plain_node nodes.now)) }
{
    for index in 0..nodes.len() {
        let node = &nodes[index];
        let name = plainly(asking.step, Premise::Help, Some(index as u32));
        let shown = helped_form(asking, node)?;
        entails(asking.alloc, asking.lemmas, &node.form, &shown, name, out)?;
    }
    Ok(())
}

/// Where each mode leads from each node.
fn push_moves(
    asking: &Asking<'_>,
    end: &Form,
    nodes: &[Node],
    out: &mut Conditions,
) -> Result<(), VcFault>
    requires few { length nodes.now < 2 ^ 32 }
    requires can_fall { NodesCanFall (map plain_node nodes.now) }
    ensures { Grows result (plain_list out.old) (plain_list out.new) (numbered_from (move_of asking.now.step (system_of asking.now) (lemmas_of asking.now) (map plain_node nodes.now) (plain end.now)) 0 (map plain_node nodes.now)) }
{
    for index in 0..nodes.len() {
        move_from(asking, end, nodes, index as u32, &nodes[index], out)?;
    }
    Ok(())
}

/// All conditions of the response of `end` to `begin` by the nodes, within `bound` rounds.
pub fn push_all(
    asking: &Asking<'_>,
    begin: &Form,
    end: &Form,
    bound: &Lin,
    nodes: &[Node],
    out: &mut Conditions,
) -> Result<(), VcFault>
    requires bound { CanFall bound.now }
    requires few { length nodes.now < 2 ^ 32 }
    requires can_fall { NodesCanFall (map plain_node nodes.now) }
    ensures { Grows result (plain_list out.old) (plain_list out.new) (ranked_list asking.now.step (system_of asking.now) (lemmas_of asking.now) (plain begin.now) (plain end.now) bound.now (map plain_node nodes.now)) }
{
    let shown = cover_form(asking.alloc, end, bound, nodes)?;
    let name = plainly(asking.step, Premise::Cover, None);
    entails(asking.alloc, asking.lemmas, begin, &shown, name, out)?;
    push_ranks(asking, nodes, out)?;
    push_helps(asking, nodes, out)?;
    push_moves(asking, end, nodes, out)
}
