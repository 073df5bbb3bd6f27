//! Where each mode leads from a node of a ranked net.
//!
//! Where a step may lead depends on its transition only: on whether it is the node's group, its helper, or another one. So the
//! cases are built once for a node. Those of the group begin those of the helper, and these begin those of any other one.

ghost use Rattle.std.specs.Prelude.{◌<◌, map};
ghost use Rattle.st_form.specs.Plain.{plain};
ghost use Rattle.temporal_goals.specs.Plain.{plain_node};
ghost use Rattle.vc_generator.specs.Asked.{system_of, lemmas_of};
ghost use Rattle.vc_generator.specs.Plain.{plain_list};
ghost use Rattle.vc_generator.specs.Refusing.{Grows};
ghost use Rattle.rule_laws.specs.RankedNet.{move_of};
ghost use Rattle.rule_fits.specs.Fitting.{CanFall};

use crate::cases::push_stay;
use crate::fairness::is_name;
use crate::ways::{group_steps, push_within};
use st_form::{Form, Premise};
use std::alloc::Global;
use temporal_goals::Node;
use transition_system::{Mode, Transition};
use vc_generator::{Asking, Case, Conditions, PerMode, VcFault, by_mode, each_mode, moved};

/// That each mode leads from a node as one of the cases for its transition says.
#[derive(Drop)]
struct Moving<'a> {
    asking: &'a Asking<'a>,
    index: u32,
    node: &'a Node,
    own: &'a [Case],
    helped: &'a [Case],
    other: &'a [Case],
}

impl PerMode for Moving<'_> {
    ghost use Rattle.std.specs.Prelude.{map};
    ghost use Rattle.st_form.specs.Plain.{plain};
    ghost use Rattle.vc_generator.specs.Asked.{lemmas_of};
    ghost use Rattle.vc_generator.specs.Plain.{plain_case};
    ghost use Rattle.ranked_net.specs.Walk.{chosen, moves};

    ghost asks = { λ r n t k m. moves r.asking.now.step (lemmas_of r.asking.now) r.index (plain r.node.now.form)
        (chosen r.node.now.group r.node.now.helper (map plain_case r.own.now) (map plain_case r.helped.now) (map plain_case r.other.now) n) t k m };

    #[tactic(auto, using(vc_generator::proofs::Growing::appends_one))]
    fn append(
        &self,
        alloc: Global,
        number: u32,
        transition: &Transition,
        place: u32,
        mode: &Mode,
        out: &mut Conditions,
    ) -> Result<(), VcFault> {
        let cases = if is_name(self.node.group, number) {
            self.own
        } else if is_name(self.node.helper, number) {
            self.helped
        } else {
            self.other
        };
        let asking = self.asking;
        let form = &self.node.form;
        let index = Some(self.index);
        let name = by_mode(asking.step, Premise::Move, index, transition.name, place);
        moved(alloc, mode, asking.lemmas, form, cases, name, out)
    }
}

/// Where each mode leads from the node of this number.
pub(crate) fn move_from(
    asking: &Asking<'_>,
    end: &Form,
    nodes: &[Node],
    index: u32,
    node: &Node,
    out: &mut Conditions,
) -> Result<(), VcFault>
    requires base { CanFall node.now.base }
    requires delay { CanFall node.now.delay }
    ensures { Grows result (plain_list out.old) (plain_list out.new) (move_of asking.now.step (system_of asking.now) (lemmas_of asking.now) (map plain_node nodes.now) (plain end.now) index (plain_node node.now)) }
{
    let mut cases = group_steps(asking.alloc, end, nodes, node)?;
    let own = cases.len();
    push_within(asking.alloc, asking.fts, nodes, node, &mut cases)?;
    let helped = cases.len();
    push_stay(asking.alloc, node, &mut cases)?;
    let moving = Moving {
        asking,
        index,
        node,
        own: &cases[..own],
        helped: &cases[..helped],
        other: &cases,
    };
    each_mode(asking.alloc, asking.fts, &moving, out)
}
