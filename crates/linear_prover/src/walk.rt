//! The walk over the problems of a condition, depth first, until a problem is left open or the search gives up. No node
//! has 400 nodes round it, and a tree has at most 100,000 nodes.
//!
//! A problem stays as it is while those that it is divided into are walked one after the other.

ghost use Rattle.std.specs.Prelude.{◌≡◌, ◌<◌, ◌≤◌, ◌^◌, IfOk, length, Some, true};
ghost use Rattle.farkas_check.specs.PlainProblem.{setting};
ghost use Rattle.farkas_check.specs.Limits.{AreSettled};
ghost use Rattle.search_laws.specs.Steady.{AreSteady};
ghost use Rattle.search_laws.specs.Walks.{walk, walk_all, walk_node, divided_by};
ghost use Rattle.search_laws.specs.Moves.{move_of};
ghost use Rattle.linear_prover.specs.Plain.{plain_outcome, plain_branches, plain_each, plain_node};
ghost use Rattle.linear_prover.specs.Divisions.{step_of, children, Applies};
ghost use Rattle.linear_prover.specs.Ready.{AreReady, IfReady, AllReady, Rises};

use crate::divisions::{Division, child, count, joined, step_to};
use crate::failure::Failure;
use crate::moves::{Move, move_at};
use crate::problems::{Conjunct, Node};
use control_states::Components;
use search_verdicts::{PathStep, WideStage};
use st_certificate::Certificate;
use st_form::Variable;
use st_memory::Memory;
use std::alloc::Global;

const MOST_NODES: u32 = 100000;

/// A certificate and the number of nodes by then, or the path to where the walk ends, its last step first.
#[derive(Drop)]
pub enum Outcome {
    Found(Certificate, u32),
    Stopped(Vec<PathStep>, Failure),
}

/// The same of the problems of a division; where one fails, its number.
#[derive(Drop)]
pub enum Branches {
    All(Vec<Certificate>, u32),
    Broke(u32, Vec<PathStep>, Failure),
}

/// A division's certificate, or the path with the division's step.
#[tactic(auto, using(st_certificate::proofs::Nodes::nodes))]
fn divided_by(division: Division, branches: Branches) -> Result<Outcome, Memory>
    ensures { IfOk result (λ o. plain_outcome o ≡ divided_by (step_of division.entry) (plain_branches branches)) }
{
    match branches {
        Branches::All(parts, nodes) => Ok(Outcome::Found(joined(division, parts), nodes)),
        Branches::Broke(branch, mut path, failure) => {
            path.push(step_to(division, branch))?;
            Ok(Outcome::Stopped(path, failure))
        }
    }
}

/// Walks a problem with so many levels left, so many nodes being counted.
#[cycle(walk)]
pub fn walk<'n, 'x>(
    alloc: Global,
    components: &'n Components,
    variables: &[Variable],
    node: &'n Node<'x>,
    levels: u32,
    nodes: u32,
) -> Result<Outcome, Memory>
    requires ready { IfReady (length variables.now) (plain_node node.now).conjuncts }
    requires few { length variables.now < 2 ^ 32 }
    requires counted { nodes ≤ 100000 }
    ensures exact { IfOk result (λ o. plain_outcome o ≡ walk (move_of (setting components.now variables.now)) levels (plain_node node.now) nodes) }
    ensures rises { IfOk result (λ o. Rises nodes (plain_outcome o)) }
{
    if levels == 0 {
        return Ok(Outcome::Stopped(Vec::new(alloc), Failure::Wide(WideStage::Tree)));
    }
    if nodes >= MOST_NODES {
        return Ok(Outcome::Stopped(Vec::new(alloc), Failure::Wide(WideStage::Tree)));
    }
    match &node.conjuncts {
        None => Ok(Outcome::Found(Certificate::Absurd, nodes + 1)),
        Some(fs) => walk_node(
            alloc,
            components,
            variables,
            node,
            fs.as_slice(),
            levels - 1,
            nodes + 1,
        ),
    }
}

/// Does what is to be done at a problem with these conjuncts.
#[cycle(walk)]
#[tactic(auto, using(st_certificate::proofs::Nodes::all_nodes))]
fn walk_node<'n, 'x>(
    alloc: Global,
    components: &'n Components,
    variables: &[Variable],
    node: &Node,
    fs: &'n [Conjunct<'x>],
    levels: u32,
    nodes: u32,
) -> Result<Outcome, Memory>
    requires are { (plain_node node.now).conjuncts ≡ Some (plain_each fs.now) }
    requires ready { AreReady (length variables.now) (plain_each fs.now) }
    requires few { length variables.now < 2 ^ 32 }
    requires counted { (0 < nodes) × (nodes ≤ 100000) }
    ensures { IfOk result (λ o. plain_outcome o ≡ walk_node (walk (move_of (setting components.now variables.now)) levels) (move_of (setting components.now variables.now) (plain_node node.now)) nodes) }
{
    match move_at(alloc, components, variables, node, fs)? {
        Move::Closes(picks) => Ok(Outcome::Found(Certificate::Linear(picks), nodes)),
        Move::Fails(failure) => Ok(Outcome::Stopped(Vec::new(alloc), failure)),
        Move::Divides(division) => {
            let branches = walk_all(
                alloc, components, variables, node, fs, division, levels, nodes,
            )?;
            divided_by(division, branches)
        }
    }
}

/// Walks the problems of a division in order.
#[cycle(walk)]
fn walk_all<'n, 'x>(
    alloc: Global,
    components: &Components,
    variables: &[Variable],
    node: &Node,
    fs: &'n [Conjunct<'x>],
    division: Division<'n>,
    levels: u32,
    nodes: u32,
) -> Result<Branches, Memory>
    requires settled { AreSettled (plain_each fs.now) }
    requires steady { AreSteady (plain_each fs.now) true }
    requires applies { Applies (plain_node node.now) fs.now division }
    requires ready { AllReady (length variables.now) (children components.now (plain_node node.now) fs.now division) }
    requires few { length variables.now < 2 ^ 32 }
    requires counted { (0 < nodes) × (nodes ≤ 100000) }
    ensures { IfOk result (λ b. plain_branches b ≡ walk_all (walk (move_of (setting components.now variables.now)) levels)
        (children components.now (plain_node node.now) fs.now division.entry) 0 nodes) }
{
    let mut parts = Vec::with_capacity(alloc, count(division))?;
    let mut now = nodes;
    for i in 0..count(division) {
        let next = child(alloc, components, node, fs, division, i)?;
        match walk(alloc, &*components, variables, &next, levels, now)? {
            Outcome::Found(part, after) => {
                parts.push(part)?;
                now = after;
            }
            Outcome::Stopped(path, failure) => {
                return Ok(Branches::Broke(i as u32, path, failure));
            }
        }
    }
    Ok(Branches::All(parts, now))
}
