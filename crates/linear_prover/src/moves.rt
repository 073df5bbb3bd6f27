//! What is done at a problem that isn't false. Where a conjunct has a location, the first one decides: the outermost
//! undecided component among its component and those around it. Else the first boolean variable is decided. Else the first
//! disjunction is split. Else the lines are eliminated.

ghost use Rattle.std.specs.Prelude.{◌≡◌, ◌<◌, ◌^◌, IfOk, List, length};
ghost use Rattle.control_states.specs.Control.{ControlFacts};
ghost use Rattle.linear_prover.specs.declared.problems.Conjunct.{Conjunct};
ghost use Rattle.linear_prover.specs.Plain.{plain_each, plain_node};
ghost use Rattle.st_form.specs.declared.variables.Variable.{Variable};
ghost use Rattle.farkas_check.specs.Problem.{lines_of, divided_into, truth_division};
ghost use Rattle.farkas_check.specs.PlainProblem.{setting};
ghost use Rattle.search_laws.specs.Moves.{component_for, first_place_of, first_truth_of, by_component, by_variable, by_disjunction, by_lines, by_place, divided};
ghost use Rattle.st_certificate.specs.Tree.{by_split, by_truth};
ghost use Rattle.linear_prover.specs.Divisions.{plain_move, MoveApplies};
ghost use Rattle.row_elimination.specs.Runs.{AllWithin};
ghost use Rattle.row_elimination.specs.Eliminations.{AreBelow};
ghost use Rattle.linear_prover.specs.Ready.{AreReady};

use crate::conjuncts::{first_disjunction, first_place_among, first_truth_among, lines_of};
use crate::divisions::Division;
use crate::failure::Failure;
use crate::problems::{Conjunct, Node};
use crate::shown::state;
use control_states::Components;
use farkas_check::decisions::{has_truth, may_case, truth_free};
use lean_elimination::{copied, refute};
use row_elimination::{Elimination, eliminate};
use shared_search::component_for;
use st_form::Variable;
use st_linear::Line;
use st_memory::Memory;
use std::alloc::Global;

/// What is done at a problem.
#[derive(Drop)]
pub enum Move<'a> {
    /// These lines, each with a multiplier, sum to a negative constant.
    Closes(Vec<(u32, i64)>),
    Divides(Division<'a>),
    Fails(Failure),
}

/// A component is decided, if it may be.
fn by_component<'a>(components: &'a Components, node: &Node, component: Option<u32>) -> Move<'a>
    ensures exact { (vs : List Variable) (fs : List Conjunct)
        → plain_move components.now (plain_node node.now) fs result ≡ by_component (setting components.now vs) (plain_node node.now) (plain_each fs) component }
    ensures applies { (fs : List Conjunct) → MoveApplies (plain_node node.now) fs result }
{
    match component {
        None => Move::Fails(Failure::Open(None)),
        Some(c) => {
            if may_case(components, node.cases.as_slice(), c) {
                Move::Divides(Division::Cases(c, components.alternatives(c)))
            } else {
                Move::Fails(Failure::Open(None))
            }
        }
    }
}

/// A boolean variable is decided, if it may be.
fn by_truth<'a>(variables: &[Variable], node: &Node, var: u32) -> Move<'a>
    ensures exact { (k : ControlFacts) (fs : List Conjunct)
        → plain_move k (plain_node node.now) fs result ≡ divided (by_truth var) (truth_division k variables.now (plain_node node.now) (plain_each fs) var) }
    ensures applies { (fs : List Conjunct) → MoveApplies (plain_node node.now) fs result }
{
    if has_truth(variables, var) && truth_free(node.truths.as_slice(), var) {
        Move::Divides(Division::Truths(var))
    } else {
        Move::Fails(Failure::Open(None))
    }
}

/// The lines are eliminated, by rows that carry their picks.
fn by_elimination<'a>(
    alloc: Global,
    components: &Components,
    variables: &[Variable],
    node: &Node,
    lines: &[Line],
) -> Result<Move<'a>, Memory>
    requires within { AllWithin lines.now }
    requires below { AreBelow (length variables.now) lines.now }
    requires few { length variables.now < 2 ^ 32 }
    ensures exact { (fs : List Conjunct) → IfOk result (λ m. plain_move components.now (plain_node node.now) fs m ≡ by_lines (setting components.now variables.now) (plain_node node.now) lines.now) }
    ensures applies { (fs : List Conjunct) → IfOk result (λ m. MoveApplies (plain_node node.now) fs m) }
{
    match eliminate(alloc, lines, variables.len() as u32)? {
        Elimination::Contradiction(picks) => Ok(Move::Closes(picks)),
        Elimination::NoContradiction(None) => Ok(Move::Fails(Failure::Open(None))),
        Elimination::NoContradiction(Some(point)) => {
            let shown = state(alloc, components, variables, node, point.as_slice())?;
            Ok(Move::Fails(Failure::Open(Some(shown))))
        }
        Elimination::Wide(stage) => Ok(Move::Fails(Failure::Wide(stage))),
    }
}

/// The lines are eliminated: first in few bits, where only a contradiction is an answer.
fn by_lines<'a>(
    alloc: Global,
    components: &Components,
    variables: &[Variable],
    node: &Node,
    fs: &[Conjunct],
) -> Result<Move<'a>, Memory>
    requires ready { AreReady (length variables.now) (plain_each fs.now) }
    requires few { length variables.now < 2 ^ 32 }
    ensures exact { IfOk result (λ m. plain_move components.now (plain_node node.now) fs.now m
        ≡ by_lines (setting components.now variables.now) (plain_node node.now) (lines_of (plain_each fs.now))) }
    ensures applies { IfOk result (λ m. MoveApplies (plain_node node.now) fs.now m) }
{
    let lines = lines_of(alloc, fs)?;
    match refute(alloc, lines.as_slice(), variables.len() as u32)? {
        Some(picks) => Ok(Move::Closes(picks)),
        None => {
            let own = copied(alloc, lines.as_slice())?;
            by_elimination(alloc, components, variables, node, own.as_slice())
        }
    }
}

/// The first disjunction is split, if there is one.
fn by_disjunction<'a, 'x>(
    alloc: Global,
    components: &Components,
    variables: &[Variable],
    node: &Node,
    fs: &'a [Conjunct<'x>],
) -> Result<Move<'a>, Memory>
    requires ready { AreReady (length variables.now) (plain_each fs.now) }
    requires few { length variables.now < 2 ^ 32 }
    ensures exact { IfOk result (λ m. plain_move components.now (plain_node node.now) fs.now m
        ≡ by_disjunction (setting components.now variables.now) (plain_node node.now) (plain_each fs.now)
        (divided_into (setting components.now variables.now) (plain_node node.now) (plain_each fs.now) (by_split 0))) }
    ensures applies { IfOk result (λ m. MoveApplies (plain_node node.now) fs.now m) }
{
    match first_disjunction(fs) {
        Some((place, parts)) => Ok(Move::Divides(Division::Disjuncts(place, parts))),
        None => by_lines(alloc, components, variables, node, fs),
    }
}

/// What is done at a problem with these conjuncts.
pub fn move_at<'a, 'x>(
    alloc: Global,
    components: &'a Components,
    variables: &[Variable],
    node: &Node,
    fs: &'a [Conjunct<'x>],
) -> Result<Move<'a>, Memory>
    requires ready { AreReady (length variables.now) (plain_each fs.now) }
    requires few { length variables.now < 2 ^ 32 }
    ensures exact { IfOk result (λ m. plain_move components.now (plain_node node.now) fs.now m
        ≡ by_place (setting components.now variables.now) (plain_node node.now) (plain_each fs.now) (first_place_of (plain_each fs.now))) }
    ensures applies { IfOk result (λ m. MoveApplies (plain_node node.now) fs.now m) }
{
    if let Some(location) = first_place_among(fs) {
        let component = component_for(components, node.cases.as_slice(), location);
        return Ok(by_component(components, node, component));
    }
    if let Some(var) = first_truth_among(fs) {
        return Ok(by_truth(variables, node, var));
    }
    by_disjunction(alloc, components, variables, node, fs)
}
