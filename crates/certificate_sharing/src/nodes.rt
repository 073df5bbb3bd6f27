//! Nodes entered into a table.

ghost use Rattle.std.specs.Prelude.{◌≡◌, IfOk, IfSome, map, true};
ghost use Rattle.st_certificate.specs.Tree.{branch, farkas, impossible, linear, trees};
ghost use Rattle.shared_certificates.specs.Nodes.{node_view, step_view, tree, unfolded};
ghost use Rattle.certificate_sharing.specs.Sharing.{Has, IsKept, trees_by, trees_in};
ghost use Rattle.tree_table.specs.Table.{Is};

use crate::hashes::node_hash;
use crate::sameness::{has_parts_below, is_same_node};
use hint_index::{Index, enter, hint};
use shared_certificates::{Node, Refusal, Step, Table};
use shared_reading::add;
use st_memory::Memory;
use std::alloc::Global;

/// Whether a node is kept under this number, over trees of smaller numbers.
fn is_kept(nodes: &[Node], number: u32, node: &Node) -> bool
    ensures { result ≡ true → IsKept nodes.now number (node_view node.now) }
{
    match nodes.get(number as usize) {
        Some(kept) => {
            if !has_parts_below(number, node) {
                return false;
            }
            is_same_node(node, kept)
        }
        None => false,
    }
}

/// The number under which a node is kept, where the index has it. An index counts from 1.
#[tactic(auto, using(crate::proofs::Growing::sharing))]
fn found(nodes: &[Node], index: &Index, node: &Node) -> Option<u32>
    ensures { IfSome result (λ n. Is (trees_by nodes.now) n (unfolded (trees_by nodes.now) (node_view node.now))) }
{
    let place = hint(index.slots(), node_hash(node));
    match place.checked_sub(1) {
        Some(number) => {
            if is_kept(nodes, number, node) {
                return Some(number);
            }
            None
        }
        None => None,
    }
}

/// Notes the number of the node that comes next.
fn note(alloc: Global, index: &mut Index, count: usize, node: &Node) -> Result<u32, Memory>
    ensures { IfOk result (λ n. n ≡ count) }
{
    match u32::try_from(count) {
        Ok(number) => {
            enter(alloc, index, node_hash(node), number.saturating_add(1))?;
            Ok(number)
        }
        Err(_) => Err(Memory),
    }
}

/// Keeps a node behind the others.
fn push(alloc: Global, table: &mut Table, index: &mut Index, node: Node) -> Result<u32, Refusal>
    ensures { IfOk result (λ n. Has (trees_in table.old) (trees_in table.new) n (unfolded (trees_in table.old) (node_view node))) }
{
    let number = note(alloc, index, table.nodes.len(), &node)?;
    add(table, node)?;
    Ok(number)
}

/// The number of a node's tree, which is kept once. One that would have more than 400 levels is refused as over a limit.
#[tactic(auto, using(crate::proofs::Growing::sharing))]
pub fn put(alloc: Global, table: &mut Table, index: &mut Index, node: Node) -> Result<u32, Refusal>
    ensures { IfOk result (λ n. Has (trees_in table.old) (trees_in table.new) n (unfolded (trees_in table.old) (node_view node))) }
{
    match found(table.nodes.as_slice(), index, &node) {
        Some(number) => Ok(number),
        None => push(alloc, table, index, node),
    }
}

pub fn put_absurd(alloc: Global, table: &mut Table, index: &mut Index) -> Result<u32, Refusal>
    ensures { IfOk result (λ n. Has (trees_in table.old) (trees_in table.new) n impossible) }
{
    put(alloc, table, index, Node::Absurd)
}

pub fn put_farkas(
    alloc: Global,
    table: &mut Table,
    index: &mut Index,
    picks: &[(u32, u64)],
) -> Result<u32, Refusal>
    ensures { IfOk result (λ n. Has (trees_in table.old) (trees_in table.new) n (farkas picks.now)) }
{
    let node = Node::Farkas(Vec::from_slice(alloc, picks)?);
    put(alloc, table, index, node)
}

pub fn put_linear(
    alloc: Global,
    table: &mut Table,
    index: &mut Index,
    lines: &[(u32, i64)],
) -> Result<u32, Refusal>
    ensures { IfOk result (λ n. Has (trees_in table.old) (trees_in table.new) n (linear lines.now)) }
{
    let node = Node::Linear(Vec::from_slice(alloc, lines)?);
    put(alloc, table, index, node)
}

/// A branch over trees that have numbers.
pub fn put_branch(
    alloc: Global,
    table: &mut Table,
    index: &mut Index,
    step: Step,
    parts: Vec<u32>,
) -> Result<u32, Refusal>
    ensures { IfOk result (λ n. Has (trees_in table.old) (trees_in table.new) n (branch (step_view step) (trees (map (tree (trees_in table.old)) parts.items)))) }
{
    put(alloc, table, index, Node::Branch(step, parts))
}
