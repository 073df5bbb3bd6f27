//! The layers of a proof: which lemmas stand together in one step, and which stand in an earlier one.
//!
//! Lemmas that use each other, directly or through others, can only be proved together; they are a strongly connected part of the graph of
//! uses, and the parts make no cycle. A part stands one layer behind the last that it uses (the layers of the condensed graph, as in the
//! longest-path layering of drawings: Eades and Sugiyama, How to draw a directed graph, 1990), so that a step cites only earlier ones.

use st_memory::Memory;
use std::alloc::Global;

/// Marks what is used by a node, and puts what wasn't marked on the list of work.
fn mark_uses(uses: &[usize], marks: &mut [bool], work: &mut Vec<usize>) -> Result<(), Memory> {
    for used in uses {
        if let Some(mark) = marks.get_mut(*used)
            && !*mark
        {
            *mark = true;
            work.push(*used)?;
        }
    }
    Ok(())
}

/// Which nodes are used from a node, directly or through others.
fn reached(alloc: Global, uses: &[Vec<usize>], from: usize) -> Result<Vec<bool>, Memory> {
    let mut marks = vec![in alloc; false; uses.len()]?;
    let mut work = Vec::new(alloc);
    if let Some(first) = uses.get(from) {
        mark_uses(first, &mut marks, &mut work)?;
    }
    for _ in 0..uses.len() {
        let Some(node) = work.pop() else {
            break;
        };
        if let Some(next) = uses.get(node) {
            mark_uses(next, &mut marks, &mut work)?;
        }
    }
    Ok(marks)
}

/// Whether a node reaches another.
fn reaches(table: &[Vec<bool>], from: usize, to: usize) -> bool {
    match table.get(from) {
        Some(row) => row.get(to) == Some(&true),
        None => false,
    }
}

/// The layer behind those of the nodes that one uses, by the layers that are known so far.
fn layer_behind(table: &[Vec<bool>], layers: &[usize], node: usize) -> usize {
    let mut layer = 0;
    for (other, found) in layers.iter().enumerate() {
        if !reaches(table, node, other) {
            continue;
        }
        let together = other == node || reaches(table, other, node);
        let least = if together {
            *found
        } else {
            found.saturating_add(1)
        };
        layer = layer.max(least);
    }
    layer
}

/// The layer of each node, from 0. The nodes are numbered by their place in `uses`, which has the nodes that each uses. A layer is at most
/// the number of nodes, so as many rounds suffice.
pub(crate) fn layers(alloc: Global, uses: &[Vec<usize>]) -> Result<Vec<usize>, Memory> {
    let mut table = Vec::with_capacity(alloc, uses.len())?;
    for node in 0..uses.len() {
        table.push(reached(alloc, uses, node)?)?;
    }
    let mut layers = vec![in alloc; 0usize; uses.len()]?;
    for _ in 0..uses.len() {
        let mut changed = false;
        for node in 0..uses.len() {
            let layer = layer_behind(&table, &layers, node);
            if let Some(place) = layers.get_mut(node)
                && *place < layer
            {
                *place = layer;
                changed = true;
            }
        }
        if !changed {
            break;
        }
    }
    Ok(layers)
}
