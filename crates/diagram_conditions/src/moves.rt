//! The conditions of the steps from a node. The cases of a step depend on its transition alone, so they are built once for
//! all modes of a transition.

ghost use Rattle.std.specs.Prelude.{◌≡◌, ◌<◌, ◌-◌, ◌^◌, map, length};
ghost use Rattle.st_form.specs.Plain.{plain};
ghost use Rattle.transition_system.specs.Plain.{plain_mode, plain_transition};
ghost use Rattle.transition_system.specs.Systems.{FewModes};
ghost use Rattle.temporal_goals.specs.Plain.{plain_drawn_node, plain_diagram};
ghost use Rattle.vc_generator.specs.Asked.{system_of, lemmas_of};
ghost use Rattle.vc_generator.specs.Plain.{plain_list, plain_case};
ghost use Rattle.vc_generator.specs.Refusing.{Grows};
ghost use Rattle.vc_generator.specs.Walks.{numbered_from};
ghost use Rattle.rule_laws.specs.Diagrams.{drawn_rank};
ghost use Rattle.rule_fits.specs.Fitting.{CanFall};
ghost use Rattle.diagram_conditions.specs.Leaving.{leaving_from, step_cases as step_cases_of};
ghost use Rattle.diagram_conditions.specs.Moves.{leads_by, leads_of};
ghost use Rattle.diagram_conditions.specs.Plain.{plain_leaving};

use crate::cases::step_cases;
use crate::leaving::{Leaving, edges_from};
use st_form::{Form, Premise};
use temporal_goals::{Diagram, DiagramKind, DiagramNode};
use transition_system::{Mode, Transition};
use vc_generator::{Asking, Case, Conditions, VcFault, by_mode, moved};

/// The node that steps come from, with what their conditions have in common.
#[derive(Drop)]
pub struct Origin<'a> {
    pub asking: &'a Asking<'a>,
    pub kind: DiagramKind,
    pub terminal: &'a Form,
    pub node: &'a DiagramNode,
}

/// Appends the condition that each step by a mode leads from the node as one of the cases says.
#[tactic(auto, using(vc_generator::proofs::Growing::appends_one))]
fn mode_leads(
    origin: &Origin<'_>,
    transition: &Transition,
    place: u32,
    mode: &Mode,
    cases: &[Case],
    out: &mut Conditions,
) -> Result<(), VcFault>
    ensures { Grows result (plain_list out.old) (plain_list out.new)
        (leads_by origin.now.asking.now.step (lemmas_of origin.now.asking.now) (plain_drawn_node origin.now.node.now) (map plain_case cases.now) transition.now.name place (plain_mode mode.now)) }
{
    let asking = origin.asking;
    let number = origin.node.number;
    let name = by_mode(
        asking.step,
        Premise::Move,
        Some(number),
        transition.name,
        place,
    );
    let form = &origin.node.form;
    moved(asking.alloc, mode, asking.lemmas, form, cases, name, out)
}

/// The same for each mode of the transition.
fn modes_lead(
    origin: &Origin<'_>,
    transition: &Transition,
    cases: &[Case],
    out: &mut Conditions,
) -> Result<(), VcFault>
    requires { length transition.now.modes.items < 2 ^ 32 - 1 }
    ensures { Grows result (plain_list out.old) (plain_list out.new)
        (numbered_from (leads_by origin.now.asking.now.step (lemmas_of origin.now.asking.now) (plain_drawn_node origin.now.node.now) (map plain_case cases.now) transition.now.name) 1 (map plain_mode transition.now.modes.items)) }
{
    for index in 0..transition.modes.len() {
        let mode = &transition.modes[index];
        mode_leads(origin, transition, index as u32 + 1, mode, cases, out)?;
    }
    Ok(())
}

/// The same for each transition, with the cases of its steps along the edges.
fn transitions_lead(
    origin: &Origin<'_>,
    edges: &[Leaving<'_>],
    transitions: &[Transition],
    out: &mut Conditions,
) -> Result<(), VcFault>
    requires few { FewModes (map plain_transition transitions.now) }
    requires counted { length transitions.now < 2 ^ 32 }
    requires falls { CanFall (drawn_rank (plain_drawn_node origin.now.node.now)) }
    ensures { Grows result (plain_list out.old) (plain_list out.new)
        (numbered_from (λ n t. numbered_from (leads_by origin.now.asking.now.step (lemmas_of origin.now.asking.now) (plain_drawn_node origin.now.node.now)
        (step_cases_of origin.now.kind (plain origin.now.terminal.now) (plain_drawn_node origin.now.node.now) (map plain_leaving edges.now) n) t.name) 1 t.modes)
        0 (map plain_transition transitions.now)) }
{
    for index in 0..transitions.len() {
        let Origin {
            asking,
            kind,
            terminal,
            node,
        } = origin;
        let cases = step_cases(asking.alloc, *kind, terminal, node, edges, index as u32)?;
        modes_lead(origin, &transitions[index], &cases, out)?;
    }
    Ok(())
}

/// Appends the conditions of all steps from the node.
pub fn steps_lead(
    origin: &Origin<'_>,
    diagram: &Diagram,
    out: &mut Conditions,
) -> Result<(), VcFault>
    requires { CanFall (drawn_rank (plain_drawn_node origin.now.node.now)) }
    ensures { Grows result (plain_list out.old) (plain_list out.new)
        (leads_of origin.now.asking.now.step (system_of origin.now.asking.now) (lemmas_of origin.now.asking.now) (plain_drawn_node origin.now.node.now)
        (step_cases_of origin.now.kind (plain origin.now.terminal.now) (plain_drawn_node origin.now.node.now)
        (leaving_from origin.now.node.now.number (plain_diagram diagram.now).nodes (plain_diagram diagram.now).edges))) }
{
    let asking = origin.asking;
    let fts = asking.fts;
    let leaving = edges_from(asking.alloc, origin.node.number, diagram)?;
    transitions_lead(origin, &leaving, &fts.transitions, out)
}
