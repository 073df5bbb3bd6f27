//! Where each mode leads from a node of a nested net. The cases of a step are built once for each group of the node, and once for
//! other transitions.

ghost use Rattle.std.specs.Prelude.{◌<◌, map};
ghost use Rattle.st_form.specs.Plain.{plain};
ghost use Rattle.temporal_goals.specs.Plain.{plain_level, plain_nested_node};
ghost use Rattle.vc_generator.specs.Asked.{system_of, lemmas_of};
ghost use Rattle.vc_generator.specs.Plain.{plain_list};
ghost use Rattle.vc_generator.specs.Refusing.{Grows};
ghost use Rattle.rule_laws.specs.NestedNet.{nested_move};
ghost use Rattle.nested_net.specs.Asked.{NodeCanFall};

use crate::cases::push_stay;
use crate::ways::{chosen, depth_cases, group_cases};
use st_form::{Form, Premise};
use std::alloc::Global;
use temporal_goals::NestedNode;
use transition_system::{Mode, Transition};
use vc_generator::{Asking, Case, Conditions, PerMode, VcFault, by_mode, each_mode, moved};

/// That each mode leads from a node as one of the cases for its transition says.
#[derive(Drop)]
struct Moving<'a> {
    asking: &'a Asking<'a>,
    index: u32,
    node: &'a NestedNode,
    groups: &'a [Vec<Case>],
    helped: &'a [Case],
    other: &'a [Case],
}

impl PerMode for Moving<'_> {
    ghost use Rattle.std.specs.Prelude.{map};
    ghost use Rattle.st_form.specs.Plain.{plain};
    ghost use Rattle.temporal_goals.specs.Plain.{plain_level};
    ghost use Rattle.vc_generator.specs.Asked.{lemmas_of};
    ghost use Rattle.vc_generator.specs.Plain.{plain_case};
    ghost use Rattle.ranked_net.specs.Walk.{moves};
    ghost use Rattle.nested_net.specs.Walk.{chosen as chosen_of, plain_lists};

    ghost asks = { λ r n t k m. moves r.asking.now.step (lemmas_of r.asking.now) r.index (plain r.node.now.form)
        (chosen_of (map plain_level r.node.now.levels.items) r.node.now.helper (plain_lists r.groups.now) (map plain_case r.helped.now) (map plain_case r.other.now) n) t k m };

    #[tactic(auto, using(vc_generator::proofs::Growing::appends_one))]
    fn append(
        &self,
        alloc: Global,
        number: u32,
        transition: &Transition,
        place: u32,
        mode: &Mode,
        out: &mut Conditions,
    ) -> Result<(), VcFault> {
        let cases = chosen(
            &self.node.levels,
            self.node.helper,
            self.groups,
            self.helped,
            self.other,
            number,
        );
        let asking = self.asking;
        let form = &self.node.form;
        let index = Some(self.index);
        let name = by_mode(asking.step, Premise::Move, index, transition.name, place);
        moved(alloc, mode, asking.lemmas, form, cases, name, out)
    }
}

/// Where each mode leads from the node of this number.
pub(crate) fn move_from(
    asking: &Asking<'_>,
    end: &Form,
    nodes: &[NestedNode],
    index: u32,
    node: &NestedNode,
    out: &mut Conditions,
) -> Result<(), VcFault>
    requires { NodeCanFall (plain_nested_node node.now) }
    ensures { Grows result (plain_list out.old) (plain_list out.new) (nested_move asking.now.step (system_of asking.now) (lemmas_of asking.now) (map plain_nested_node nodes.now) (plain end.now) index (plain_nested_node node.now)) }
{
    let alloc = asking.alloc;
    let fts = asking.fts;
    let groups = group_cases(alloc, fts, end, nodes, node)?;
    let mut cases = depth_cases(alloc, fts, end, nodes, node, node.levels.len())?;
    let helped = cases.len();
    push_stay(alloc, node, &mut cases)?;
    let moving = Moving {
        asking,
        index,
        node,
        groups: &groups,
        helped: &cases[..helped],
        other: &cases,
    };
    each_mode(alloc, fts, &moving, out)
}
