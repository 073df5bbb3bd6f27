//! The drawings of a proof's steps.

use crate::diagrams::add_diagram;
use crate::graph::Graph;
use crate::levels::add_levels;
use crate::nets::{add_net, nested_item, ranked_item};
use formula_words::{Vocabulary, formula, sum};
use posed_conditions::PosedProof;
use st_form::Form;
use st_memory::Memory;
use std::alloc::{AllocFailed, Global};
use std::fmt::Write;
use temporal_goals::{Goal, NestedNet, Net, RuleText, Step};
use thiserror::Error;
use transition_system::Fts;

/// Why nothing of a proof is drawn.
#[derive(Clone, Copy, Debug, PartialEq, Eq, Error)]
pub enum DrawingFault {
    /// No step has the name that is asked for.
    #[error("no step is called so")]
    NoSuchStep,
    /// The step, or each step, is an invariance: its rule has no drawing.
    #[error("invariances have no drawing")]
    NothingToDraw,
    #[error("out of memory")]
    Memory,
}

impl From<Memory> for DrawingFault {
    fn from(_: Memory) -> DrawingFault {
        DrawingFault::Memory
    }
}

impl<T: Drop> From<AllocFailed<T>> for DrawingFault {
    fn from(_: AllocFailed<T>) -> DrawingFault {
        DrawingFault::Memory
    }
}

fn waiting_text(
    alloc: Global,
    words: &Vocabulary,
    premise: &Form,
    levels: &[Form],
) -> Result<String, Memory> {
    let mut out = formula(alloc, words, premise)?;
    for (place, level) in levels.iter().enumerate() {
        out.push_str(if place == 0 { " ==> " } else { " wait " })?;
        out.push_str(&formula(alloc, words, level)?)?;
    }
    Ok(out)
}

/// What a goal claims.
fn goal_text(alloc: Global, words: &Vocabulary, goal: &Goal) -> Result<String, Memory> {
    match goal {
        Goal::Invariant(claim) => formula(alloc, words, claim),
        Goal::Waiting(premise, levels) => waiting_text(alloc, words, premise, levels),
        Goal::Response(premise, goal, bound) => {
            let premise = formula(alloc, words, premise)?;
            let goal = formula(alloc, words, goal)?;
            let bound = sum(alloc, words, bound)?;
            Ok(format!(in alloc; "{premise} leads {goal} within {bound}")?)
        }
    }
}

/// The caption of a step: its name and its claim.
fn caption(alloc: Global, words: &Vocabulary, step: &Step) -> Result<String, Memory> {
    let mut out = step.name.clone()?;
    write!(out, ": {}", goal_text(alloc, words, &step.goal)?)?;
    Ok(out)
}

/// What a response leads to.
fn response_goal(goal: &Goal) -> Option<&Form> {
    match goal {
        Goal::Response(_, goal, _) => Some(goal),
        Goal::Invariant(_) | Goal::Waiting(_, _) => None,
    }
}

fn add_ranked(
    alloc: Global,
    graph: &mut Graph,
    words: &Vocabulary,
    system: &Fts,
    net: &Net,
    goal: Option<&Form>,
) -> Result<(), Memory> {
    let mut items = Vec::with_capacity(alloc, net.nodes.len())?;
    for node in &net.nodes {
        items.push(ranked_item(alloc, words, node)?)?;
    }
    add_net(
        alloc,
        graph,
        words,
        system,
        &items,
        goal.unwrap_or(&Form::True),
    )
}

fn add_nested(
    alloc: Global,
    graph: &mut Graph,
    words: &Vocabulary,
    system: &Fts,
    net: &NestedNet,
    goal: Option<&Form>,
) -> Result<(), Memory> {
    let mut items = Vec::with_capacity(alloc, net.nodes.len())?;
    for node in &net.nodes {
        items.push(nested_item(alloc, words, system, node)?)?;
    }
    add_net(
        alloc,
        graph,
        words,
        system,
        &items,
        goal.unwrap_or(&Form::True),
    )
}

/// The drawing of a step, or `None` where its rule has none: that of an invariance.
pub fn step_graph(
    alloc: Global,
    system: &Fts,
    words: &Vocabulary,
    step: &Step,
) -> Result<Option<Graph>, Memory> {
    let mut graph = Graph::new(alloc, step.name.clone()?, caption(alloc, words, step)?);
    let goal = response_goal(&step.goal);
    match &step.rule {
        RuleText::Basic | RuleText::Stronger(_) => return Ok(None),
        RuleText::Levels(forms) => add_levels(alloc, &mut graph, words, forms)?,
        RuleText::Net(net) => add_ranked(alloc, &mut graph, words, system, net, goal)?,
        RuleText::Nested(net) => add_nested(alloc, &mut graph, words, system, net, goal)?,
        RuleText::Diagram(diagram) => add_diagram(alloc, &mut graph, words, system, diagram)?,
    }
    Ok(Some(graph))
}

/// The drawings of a proof's steps, or of the step with the name that is wanted.
///
/// # Errors
///
/// `NoSuchStep` where no step has the name, `NothingToDraw` where no step that is meant has a drawing, or want of memory.
pub fn proof_graphs(
    alloc: Global,
    posed: &PosedProof,
    words: &Vocabulary,
    wanted: Option<&str>,
) -> Result<Vec<Graph>, DrawingFault> {
    let mut graphs = Vec::new(alloc);
    let mut meant = wanted.is_none();
    for step in &posed.proof.script.steps {
        if wanted.is_none_or(|name| name == step.name.as_str()) {
            meant = true;
            if let Some(graph) = step_graph(alloc, &posed.source.system, words, step)? {
                graphs.push(graph)?;
            }
        }
    }
    if !meant {
        return Err(DrawingFault::NoSuchStep);
    }
    if graphs.is_empty() {
        return Err(DrawingFault::NothingToDraw);
    }
    Ok(graphs)
}
