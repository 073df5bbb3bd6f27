//! What a diagram asks of one node: that its formula implies the goal's formula of its level, that its rank is at least 0,
//! that its helper is enabled, and that each step stays on it or goes along an edge.

ghost use Rattle.std.specs.Prelude.{◌≡◌, IfOk, map};
ghost use Rattle.st_form.specs.Plain.{plain};
ghost use Rattle.transition_system.specs.Plain.{plain_system};
ghost use Rattle.rule_laws.specs.Names.{enabled_of};

use crate::ends::implies_level;
use crate::moves::{Origin, steps_lead};
use crate::nodes::PerNode;
use crate::ranks::rank;
use st_form::{Form, Premise};
use st_memory::Memory;
use std::alloc::Global;
use temporal_goals::{Diagram, DiagramKind, DiagramNode};
use transition_system::{Fts, enabled};
use vc_generator::{Asking, Conditions, VcFault, entails, plainly};

/// Where the helper is enabled.
fn helper_enabled(alloc: Global, fts: &Fts, helper: Option<u32>) -> Result<Form, Memory>
    ensures { IfOk result (λ f. plain f ≡ enabled_of (plain_system fts.now) helper) }
{
    match helper {
        Some(number) => match fts.transitions.get(number as usize) {
            Some(transition) => enabled(alloc, transition),
            None => Ok(Form::False),
        },
        None => Ok(Form::False),
    }
}

/// Each node's formula implies the goal's formula of its level, which is its number.
#[derive(Drop)]
pub struct Levels<'a> {
    pub asking: &'a Asking<'a>,
    pub goals: &'a [Form],
}

impl PerNode for Levels<'_> {
    ghost use Rattle.std.specs.Prelude.{map};
    ghost use Rattle.st_form.specs.Plain.{plain};
    ghost use Rattle.vc_generator.specs.Asked.{lemmas_of};
    ghost use Rattle.rule_laws.specs.Diagrams.{wait_level};

    ghost asks = { λ r n. wait_level r.asking.now.step (lemmas_of r.asking.now) (map plain r.goals.now) n };

    fn append(&self, node: &DiagramNode, out: &mut Conditions) -> Result<(), VcFault> {
        implies_level(self.asking, &node.form, self.goals, node.number, out)
    }
}

/// Each node's rank is at least 0.
#[derive(Drop)]
pub struct Ranks<'a> {
    pub asking: &'a Asking<'a>,
}

impl PerNode for Ranks<'_> {
    ghost use Rattle.vc_generator.specs.Asked.{lemmas_of};
    ghost use Rattle.rule_laws.specs.Diagrams.{drawn_ranked};

    ghost asks = { λ r n. drawn_ranked r.asking.now.step (lemmas_of r.asking.now) n };

    #[tactic(auto, using(vc_generator::proofs::Growing::appends_one))]
    fn append(&self, node: &DiagramNode, out: &mut Conditions) -> Result<(), VcFault> {
        let asking = self.asking;
        let least = Form::Row(rank(asking.alloc, node)?);
        let name = plainly(asking.step, Premise::Rank, Some(node.number));
        entails(asking.alloc, asking.lemmas, &node.form, &least, name, out)
    }
}

/// Each node's helper is enabled.
#[derive(Drop)]
pub struct Helps<'a> {
    pub asking: &'a Asking<'a>,
}

impl PerNode for Helps<'_> {
    ghost use Rattle.vc_generator.specs.Asked.{system_of, lemmas_of};
    ghost use Rattle.rule_laws.specs.Diagrams.{drawn_help};

    ghost asks = { λ r n. drawn_help r.asking.now.step (system_of r.asking.now) (lemmas_of r.asking.now) n };

    #[tactic(auto, using(vc_generator::proofs::Growing::appends_one))]
    fn append(&self, node: &DiagramNode, out: &mut Conditions) -> Result<(), VcFault> {
        let asking = self.asking;
        let helps = helper_enabled(asking.alloc, asking.fts, node.helper)?;
        let name = plainly(asking.step, Premise::Help, Some(node.number));
        entails(asking.alloc, asking.lemmas, &node.form, &helps, name, out)
    }
}

/// Each step stays on the node or goes along an edge.
#[derive(Drop)]
pub struct Steps<'a> {
    pub asking: &'a Asking<'a>,
    pub kind: DiagramKind,
    pub diagram: &'a Diagram,
}

impl PerNode for Steps<'_> {
    ghost use Rattle.vc_generator.specs.Asked.{system_of, lemmas_of};
    ghost use Rattle.temporal_goals.specs.Plain.{plain_diagram};
    ghost use Rattle.diagram_conditions.specs.Moves.{cases_of, leads_of};

    ghost asks = { λ r n. leads_of r.asking.now.step (system_of r.asking.now) (lemmas_of r.asking.now) n (cases_of r.kind (plain_diagram r.diagram.now) n) };

    fn append(&self, node: &DiagramNode, out: &mut Conditions) -> Result<(), VcFault> {
        let origin = Origin {
            asking: self.asking,
            kind: self.kind,
            terminal: &self.diagram.terminal,
            node,
        };
        steps_lead(&origin, self.diagram, out)
    }
}
