//! The formulas of which one holds wherever the goal's first formula does: the terminal node's, or a node's; for a response
//! with a rank that the bound covers.

ghost use Rattle.std.specs.Prelude.{◌≡◌, ◌∷◌, IfOk, map};
ghost use Rattle.st_linear.specs.Simple.{lowered};
ghost use Rattle.st_form.specs.Formula.{some, formulas};
ghost use Rattle.st_form.specs.Plain.{plain};
ghost use Rattle.temporal_goals.specs.Plain.{plain_drawn_node, plain_diagram};
ghost use Rattle.rule_laws.specs.Diagrams.{wait_forms, chain_starts, rank_starts};
ghost use Rattle.rule_fits.specs.Fitting.{CanFall};
ghost use Rattle.diagram_conditions.specs.Starts.{starts_below};

use crate::ranks::{number, rank};
use st_form::Form;
use st_linear::Lin;
use st_memory::Memory;
use std::alloc::Global;
use temporal_goals::{Diagram, DiagramNode};
use vc_generator::numbers::at_least;

/// The state is on some node.
#[tactic(auto, using(st_form::proofs::Nodes::nodes))]
pub fn on_some_node(alloc: Global, diagram: &Diagram) -> Result<Form, Memory>
    ensures { IfOk result (λ f. plain f ≡ some (formulas (wait_forms (plain_diagram diagram.now)))) }
{
    let mut forms = Vec::new(alloc);
    for node in &diagram.nodes {
        forms.push(node.form.copy(alloc)?)?;
    }
    forms.push(diagram.terminal.copy(alloc)?)?;
    Ok(Form::Or(forms))
}

/// The state is on some node of a chain, whose number is at most the bound.
#[tactic(auto, using(st_form::proofs::Nodes::nodes))]
pub fn on_some_link(alloc: Global, bound: &Lin, diagram: &Diagram) -> Result<Form, Memory>
    ensures { IfOk result (λ f. plain f ≡ some (formulas (plain diagram.now.terminal ∷ map (chain_starts bound.now) (map plain_drawn_node diagram.now.nodes.items)))) }
{
    let mut forms = Vec::new(alloc);
    forms.push(diagram.terminal.copy(alloc)?)?;
    for node in &diagram.nodes {
        let least = number(alloc, node.number)?;
        forms.push(starts_on(alloc, bound, node, &least)?)?;
    }
    Ok(Form::Or(forms))
}

/// The state is on some node, whose rank is below the bound.
#[tactic(auto, using(st_form::proofs::Nodes::nodes))]
pub fn on_some_rank(alloc: Global, bound: &Lin, diagram: &Diagram) -> Result<Form, Memory>
    requires { CanFall bound.now }
    ensures { IfOk result (λ f. plain f ≡ some (formulas (plain diagram.now.terminal ∷ map (rank_starts bound.now) (map plain_drawn_node diagram.now.nodes.items)))) }
{
    let below = bound.lowered(alloc)?;
    let mut forms = Vec::new(alloc);
    forms.push(diagram.terminal.copy(alloc)?)?;
    for node in &diagram.nodes {
        let least = rank(alloc, node)?;
        forms.push(starts_on(alloc, &below, node, &least)?)?;
    }
    Ok(Form::Or(forms))
}

/// The state is on the node, and the bound is at least `least`.
#[tactic(auto, using(st_form::proofs::Nodes::nodes))]
fn starts_on(alloc: Global, bound: &Lin, node: &DiagramNode, least: &Lin) -> Result<Form, Memory>
    ensures { IfOk result (λ f. plain f ≡ starts_below bound.now (plain node.now.form) least.now) }
{
    let form = node.form.copy(alloc)?;
    let covered = at_least(alloc, bound, least)?;
    Ok(Form::And(vec![in alloc; form, covered]?))
}
