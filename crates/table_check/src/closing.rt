//! Whether a number's tree is valid for the problem of a list.
//!
//! The recursion goes down the tree. A node divides the problem into problems, which are numbers of lists; a leaf adds up the
//! picked rows or lines of the list. What a node refers to stands before it, so each part is looked for among fewer nodes.

ghost use Rattle.std.specs.Prelude.{◌↔◌, All, IfOk, IfSome, IsTrue, List, Option, length, map};
ghost use Rattle.st_certificate.specs.Tree.{trees};
ghost use Rattle.farkas_check.specs.Problem.{Problem, division};
ghost use Rattle.farkas_check.specs.PlainProblem.{setting};
ghost use Rattle.farkas_check.specs.Valid.{AreValid, There, Valid};
ghost use Rattle.form_table.specs.Contents.{Grows, formulas_of};
ghost use Rattle.shared_certificates.specs.Nodes.{node_view, step_view, tree, unfolded};
ghost use Rattle.shared_certificates.specs.Grammar.{IsNode, IsStep};
ghost use Rattle.shared_search.specs.Books.{AreNumbered};
ghost use Rattle.shared_check.specs.Problems.{IsDivision, IsDivisionReady, IsReady, problem_of};
ghost use Rattle.table_check.specs.Nodes.{AreNodes, trees_by};

use control_states::Components;
use form_table::Table;
use shared_certificates::{Node, Step};
use shared_check::cases::by_case;
use shared_check::leaves::{farkas_closes, linear_sum_closes};
use shared_check::problems::{Division, Listed};
use shared_check::splits::{by_cut, by_split};
use shared_check::values::by_truth;
use shared_search::Decisions;
use st_form::Variable;
use st_memory::Memory;
use std::alloc::Global;

/// What a step divides a problem into.
fn divided(
    alloc: Global,
    table: &mut Table,
    decisions: &Decisions,
    components: &Components,
    variables: &[Variable],
    step: &Step,
    problem: &Listed,
) -> Result<Division, Memory>
    requires step { IsStep (step_view step.now) }
    requires numbered { AreNumbered (setting components.now variables.now) table.old.decisions decisions.now }
    requires ready { IsReady (setting components.now variables.now) (formulas_of table.old) problem.now }
    ensures grows { Grows table.old table.new }
    ensures made { IfOk result (λ d. IsDivision (setting components.now variables.now) (formulas_of table.new) d
        (division (setting components.now variables.now) (problem_of (formulas_of table.old) problem.now) (step_view step.now))) }
{
    match step {
        Step::Case(component) => by_case(
            alloc, table, decisions, components, variables, problem, *component,
        ),
        Step::Truth(variable) => by_truth(
            alloc, table, decisions, components, variables, problem, *variable,
        ),
        Step::Split(disjunction) => {
            by_split(alloc, table, components, variables, problem, *disjunction)
        }
        Step::Cut(form) => by_cut(alloc, table, components, variables, problem, form),
    }
}

/// Whether a node's tree is valid for a problem, by the nodes before it. With `None` nothing is said.
#[cycle(closes)]
fn node_closes(
    alloc: Global,
    before: &[Node],
    table: &mut Table,
    decisions: &Decisions,
    components: &Components,
    variables: &[Variable],
    node: &Node,
    problem: &Listed,
) -> Result<Option<bool>, Memory>
    requires nodes { AreNodes before.now }
    requires node { IsNode (length before.now) (node_view node.now) }
    requires numbered { AreNumbered (setting components.now variables.now) table.old.decisions decisions.now }
    requires ready { IsReady (setting components.now variables.now) (formulas_of table.old) problem.now }
    ensures grows { Grows table.old table.new }
    ensures exact { IfOk result (λ o. IfSome o (λ yes. IsTrue yes
        ↔ Valid (setting components.now variables.now) (unfolded (trees_by before.now) (node_view node.now)) (problem_of (formulas_of table.old) problem.now))) }
{
    match node {
        Node::Absurd => Ok(Some(problem.list.is_none())),
        Node::Farkas(picks) => Ok(Some(farkas_closes(alloc, table, problem.list, picks)?)),
        Node::Linear(picks) => Ok(Some(linear_sum_closes(alloc, table, problem.list, picks)?)),
        Node::Branch(step, parts) => {
            let division = divided(
                alloc, table, decisions, components, variables, step, problem,
            )?;
            close_all(
                alloc, before, table, decisions, components, variables, parts, division,
            )
        }
    }
}

/// Whether there are as many trees as problems, and each is valid for its own.
#[cycle(closes)]
fn close_all(
    alloc: Global,
    nodes: &[Node],
    table: &mut Table,
    decisions: &Decisions,
    components: &Components,
    variables: &[Variable],
    parts: &[u32],
    division: Division,
) -> Result<Option<bool>, Memory>
    requires nodes { AreNodes nodes.now }
    requires numbered { AreNumbered (setting components.now variables.now) table.old.decisions decisions.now }
    requires ready { IsDivisionReady (setting components.now variables.now) (formulas_of table.old) division }
    ensures grows { Grows table.old table.new }
    ensures exact { (d : Option (List Problem)) → IsDivision (setting components.now variables.now) (formulas_of table.old) division d
        → IfOk result (λ o. IfSome o (λ yes. IsTrue yes
        ↔ There d (AreValid (setting components.now variables.now) (trees (map (tree (trees_by nodes.now)) parts.now))))) }
{
    match division {
        Division::Refused => Ok(Some(false)),
        Division::Into(problems) => close_each(
            alloc,
            nodes,
            table,
            decisions,
            components,
            variables,
            parts,
            problems.as_slice(),
        ),
        Division::Unknown => Ok(None),
    }
}

#[cycle(closes)]
fn close_each(
    alloc: Global,
    nodes: &[Node],
    table: &mut Table,
    decisions: &Decisions,
    components: &Components,
    variables: &[Variable],
    parts: &[u32],
    problems: &[Listed],
) -> Result<Option<bool>, Memory>
    requires nodes { AreNodes nodes.now }
    requires numbered { AreNumbered (setting components.now variables.now) table.old.decisions decisions.now }
    requires ready { All (IsReady (setting components.now variables.now) (formulas_of table.old)) problems.now }
    ensures grows { Grows table.old table.new }
    ensures exact { IfOk result (λ o. IfSome o (λ yes. IsTrue yes
        ↔ AreValid (setting components.now variables.now) (trees (map (tree (trees_by nodes.now)) parts.now)) (map (problem_of (formulas_of table.old)) problems.now))) }
{
    if parts.len() != problems.len() {
        return Ok(Some(false));
    }
    for (i, part) in parts.iter().enumerate() {
        let Some(yes) = closes(
            alloc,
            nodes,
            table,
            decisions,
            components,
            variables,
            *part,
            &problems[i],
        )?
        else {
            return Ok(None);
        };
        if !yes {
            return Ok(Some(false));
        }
    }
    Ok(Some(true))
}

/// Whether a number's tree is valid for a problem; where there is no node of this number, it is that of a false problem. With
/// `None` nothing is said.
#[cycle(closes)]
pub fn closes(
    alloc: Global,
    nodes: &[Node],
    table: &mut Table,
    decisions: &Decisions,
    components: &Components,
    variables: &[Variable],
    number: u32,
    problem: &Listed,
) -> Result<Option<bool>, Memory>
    requires nodes { AreNodes nodes.now }
    requires numbered { AreNumbered (setting components.now variables.now) table.old.decisions decisions.now }
    requires ready { IsReady (setting components.now variables.now) (formulas_of table.old) problem.now }
    ensures grows { Grows table.old table.new }
    ensures exact { IfOk result (λ o. IfSome o (λ yes. IsTrue yes
        ↔ Valid (setting components.now variables.now) (tree (trees_by nodes.now) number) (problem_of (formulas_of table.old) problem.now))) }
{
    if table.is_full() {
        return Ok(None);
    }
    match nodes.get(number as usize) {
        Some(node) => node_closes(
            alloc,
            &nodes[..number as usize],
            table,
            decisions,
            components,
            variables,
            node,
            problem,
        ),
        None => Ok(Some(problem.list.is_none())),
    }
}
