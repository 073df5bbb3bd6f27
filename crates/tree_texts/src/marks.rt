//! What is reached from trees of a table. A tree's parts have smaller numbers than it, so one walk down the numbers comes to all.

ghost use Rattle.std.specs.Prelude.{◌<◌, length};
ghost use Rattle.tree_table.specs.Nodes.{trees_in};

use st_memory::Memory;
use std::alloc::Global;
use tree_table::{Kind, TreeTable};

/// A number above each of these.
fn bound(numbers: &[u32]) -> u32 {
    let mut bound = 0;
    for number in numbers {
        bound = number.saturating_add(1).max(bound);
    }
    bound
}

fn mark_each(marks: &mut [bool], numbers: &[u32]) {
    for number in numbers {
        let place = *number as usize;
        if place < marks.len() {
            marks[place] = true;
        }
    }
}

#[tactic(auto, using(tree_table::proofs::Reading::reading))]
fn mark_parts(trees: &TreeTable, number: u32, marks: &mut [bool])
    requires { number < length (trees_in trees.now) }
{
    match trees.node(number).kind {
        Kind::Absurd => {}
        Kind::Linear(_, _) => {}
        Kind::Branch(_, from, count) => mark_each(marks, trees.parts(from, count)),
    }
}

fn is_marked(marks: &[bool], number: u32) -> bool {
    match marks.get(number as usize) {
        Some(mark) => *mark,
        None => false,
    }
}

/// Marks the parts of a number's tree, where it is marked and there.
fn mark_from(trees: &TreeTable, number: u32, marks: &mut [bool]) {
    if !is_marked(marks, number) {
        return;
    }
    if trees.has(number) {
        mark_parts(trees, number, marks);
    }
}

/// Of each number up to the largest of these, whether it is reached from them.
pub fn reached(alloc: Global, trees: &TreeTable, roots: &[u32]) -> Result<Vec<bool>, Memory> {
    let top = bound(roots);
    let mut marks = Vec::new(alloc);
    marks.resize(top as usize, false)?;
    mark_each(&mut marks, roots);
    for above in 0..top {
        let number = top.saturating_sub(above).saturating_sub(1);
        mark_from(trees, number, &mut marks);
    }
    Ok(marks)
}
