//! How a problem is divided: by the alternatives of a component, by the values of a boolean variable, or by the disjuncts
//! of a disjunction. Each problem of a division is made just before it is walked.

ghost use Rattle.std.specs.Prelude.{◌≡◌, ◌<◌, ◌+◌, IfOk, length, slice_get, Some, take, drop, true};
ghost use Rattle.farkas_check.specs.Problem.{case_problems, split_problems, in_place};
ghost use Rattle.st_form.specs.Plain.{plain, plain_list};
ghost use Rattle.st_form.specs.Simple.{append, opened};
ghost use Rattle.search_laws.specs.Steady.{AreSteady};
ghost use Rattle.farkas_check.specs.Limits.{AreSettled};
ghost use Rattle.st_certificate.specs.Tree.{branch};
ghost use Rattle.st_certificate.specs.Plain.{plain as tree_of, plain_trees};
ghost use Rattle.linear_prover.specs.Plain.{plain_each, plain_node};
ghost use Rattle.search_verdicts.specs.Plain.{plain_step};
ghost use Rattle.linear_prover.specs.Divisions.{step_of, size, children, Applies};

use crate::decisions::{with_case, with_truth};
use crate::problems::{Conjunct, Node, lend, lend_opened, with_conjuncts};
use control_states::{Alternative, Components};
use search_verdicts::{PathKind, PathStep};
use st_certificate::Certificate;
use st_form::Form;
use st_memory::Memory;
use std::alloc::Global;

/// A division of a problem.
#[derive(Clone, Copy)]
pub enum Division<'a> {
    /// By the alternatives of a component.
    Cases(u32, &'a [Alternative]),
    /// By the values of a boolean variable.
    Truths(u32),
    /// By the disjuncts of the disjunction at this place among the conjuncts, the first one.
    Disjuncts(usize, &'a [Form]),
}

/// The number of problems.
pub fn count(division: Division) -> usize
    ensures { result ≡ size division.entry }
{
    match division {
        Division::Cases(_, choices) => choices.len(),
        Division::Truths(_) => 2,
        Division::Disjuncts(_, parts) => parts.len(),
    }
}

/// The i-th problem.
pub fn child<'b, 'x>(
    alloc: Global,
    components: &Components,
    node: &Node,
    fs: &'b [Conjunct<'x>],
    division: Division<'b>,
    i: usize,
) -> Result<Node<'b>, Memory>
    requires settled { AreSettled (plain_each fs.now) }
    requires steady { AreSteady (plain_each fs.now) true }
    requires applies { Applies (plain_node node.now) fs.now division }
    requires there { i < size division }
    ensures { IfOk result (λ n. slice_get (children components.now (plain_node node.now) fs.now division.entry) i ≡ Some (plain_node n)) }
{
    match division {
        Division::Cases(component, choices) => {
            by_alternative(alloc, components, node, fs, component, choices, i)
        }
        Division::Truths(var) => with_truth(alloc, components, node, fs, var, i == 0),
        Division::Disjuncts(place, parts) => by_disjunct(alloc, node, fs, place, parts, i),
    }
}

fn by_alternative<'b, 'x>(
    alloc: Global,
    components: &Components,
    node: &Node,
    fs: &'b [Conjunct<'x>],
    component: u32,
    choices: &[Alternative],
    i: usize,
) -> Result<Node<'b>, Memory>
    requires settled { AreSettled (plain_each fs.now) }
    requires steady { AreSteady (plain_each fs.now) true }
    requires applies { component < length node.now.cases.items }
    requires there { i < length choices.now }
    ensures { IfOk result (λ n. slice_get (case_problems components.now (plain_node node.now) (plain_each fs.now) component choices.now) i ≡ Some (plain_node n)) }
{
    with_case(alloc, components, node, fs, component, choices[i])
}

/// The conjuncts with a disjunct, or its parts, in the place of its disjunction.
fn in_place<'b, 'x>(
    alloc: Global,
    fs: &'b [Conjunct<'x>],
    place: usize,
    f: &'b Form,
) -> Result<Vec<Conjunct<'b>>, Memory>
    requires { place < length fs.now }
    ensures { IfOk result (λ v. plain_each v.items
        ≡ append (plain_each (take place fs.now)) (append (opened (plain f.now)) (plain_each (drop (place + 1) fs.now)))) }
{
    let front = &fs[..place];
    let back = &fs[place + 1..];
    let empty = Vec::with_capacity(alloc, fs.len())?;
    let before = lend(empty, front)?;
    let middle = lend_opened(before, f)?;
    let whole = lend(middle, back)?;
    Ok(whole)
}

fn by_disjunct<'b, 'x>(
    alloc: Global,
    node: &Node,
    fs: &'b [Conjunct<'x>],
    place: usize,
    parts: &'b [Form],
    i: usize,
) -> Result<Node<'b>, Memory>
    requires applies { place < length fs.now }
    requires there { i < length parts.now }
    ensures { IfOk result (λ n. slice_get (split_problems (plain_node node.now)
        (in_place (plain_each (take place fs.now)) (plain_list parts.now) (plain_each (drop (place + 1) fs.now)))) i ≡ Some (plain_node n)) }
{
    let conjuncts = in_place(alloc, fs, place, &parts[i])?;
    with_conjuncts(alloc, node, conjuncts)
}

/// The certificate whose parts are those of a division's problems.
#[tactic(auto, using(st_certificate::proofs::Nodes::nodes))]
pub fn joined(division: Division, parts: Vec<Certificate>) -> Certificate
    ensures { tree_of result ≡ branch (step_of division.entry) (plain_trees parts.items) }
{
    match division {
        Division::Cases(component, _) => Certificate::Case(component, parts),
        Division::Truths(var) => Certificate::Bool(var, parts),
        Division::Disjuncts(_, _) => Certificate::Split(0, parts),
    }
}

/// The step of a path to a division's problem.
pub fn step_to(division: Division, branch: u32) -> PathStep
    ensures { plain_step result ≡ record { step = step_of division.entry; branch = branch } }
{
    let (kind, number) = match division {
        Division::Cases(component, _) => (PathKind::Case, component),
        Division::Truths(var) => (PathKind::Bool, var),
        Division::Disjuncts(_, _) => (PathKind::Split, 0),
    };
    PathStep {
        kind,
        number,
        branch,
    }
}
