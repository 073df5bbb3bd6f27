//! Trees of a search entered into a table of certificates: those that are reached, and equal ones once.

ghost use Rattle.std.specs.Prelude.{◌<◌, length};
ghost use Rattle.tree_table.specs.Nodes.{trees_in};

use crate::marks::reached;
use certificate_sharing::put;
use hint_index::Index;
use shared_certificates::{Node, Refusal, Step, Table};
use st_memory::Memory;
use std::alloc::Global;
use tree_table::{Kind, TreeTable};

fn step_of(step: tree_table::Step) -> Step {
    match step {
        tree_table::Step::Case(component) => Step::Case(component),
        tree_table::Step::Truth(variable) => Step::Truth(variable),
        tree_table::Step::Split(disjunction) => Step::Split(disjunction),
    }
}

/// The number under which a tree was entered.
fn name_of(names: &[u32], number: u32) -> u32 {
    match names.get(number as usize) {
        Some(name) => *name,
        None => 0,
    }
}

fn names_of(alloc: Global, names: &[u32], numbers: &[u32]) -> Result<Vec<u32>, Memory> {
    let mut out = Vec::with_capacity(alloc, numbers.len())?;
    for number in numbers {
        out.push(name_of(names, *number))?;
    }
    Ok(out)
}

/// A number's node over trees that were entered.
#[tactic(auto, using(tree_table::proofs::Reading::reading))]
fn node_of(alloc: Global, trees: &TreeTable, names: &[u32], number: u32) -> Result<Node, Memory>
    requires { number < length (trees_in trees.now) }
{
    match trees.node(number).kind {
        Kind::Absurd => Ok(Node::Absurd),
        Kind::Linear(from, count) => {
            let picks = Vec::from_slice(alloc, trees.picks(from, count))?;
            Ok(Node::Linear(picks))
        }
        Kind::Branch(step, from, count) => {
            let parts = names_of(alloc, names, trees.parts(from, count))?;
            Ok(Node::Branch(step_of(step), parts))
        }
    }
}

/// Enters the tree with the number that is this place, where there is one.
fn enter_at(
    alloc: Global,
    table: &mut Table,
    index: &mut Index,
    trees: &TreeTable,
    names: &[u32],
    place: usize,
) -> Result<u32, Refusal> {
    let Ok(number) = u32::try_from(place) else {
        return Ok(0);
    };
    if !trees.has(number) {
        return Ok(0);
    }
    let node = node_of(alloc, trees, names, number)?;
    put(alloc, table, index, node)
}

/// Enters the trees that are marked, and answers of each number under which one its tree was entered.
fn enter_marked(
    alloc: Global,
    table: &mut Table,
    index: &mut Index,
    trees: &TreeTable,
    marks: &[bool],
) -> Result<Vec<u32>, Refusal> {
    let mut names = Vec::with_capacity(alloc, marks.len())?;
    for (place, mark) in marks.iter().enumerate() {
        let mut name = 0;
        if *mark {
            name = enter_at(alloc, table, index, trees, &names, place)?;
        }
        names.push(name)?;
    }
    Ok(names)
}

/// Enters the trees with these numbers, each as the next certificate.
pub fn enter(
    alloc: Global,
    table: &mut Table,
    index: &mut Index,
    trees: &TreeTable,
    roots: &[u32],
) -> Result<(), Refusal> {
    let marks = reached(alloc, trees, roots)?;
    let names = enter_marked(alloc, table, index, trees, &marks)?;
    for root in roots {
        table.roots.push(name_of(&names, *root))?;
    }
    Ok(())
}
