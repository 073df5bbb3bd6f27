//! How large trees are, by number. It is a hint: no clause speaks of it.

use shared_certificates::Node;
use st_memory::Memory;
use std::alloc::Global;

/// The size of a number's tree; where there is none, that of a leaf.
pub fn size_at(sizes: &[u32], number: u32) -> u32 {
    match sizes.get(number as usize) {
        Some(size) => *size,
        None => 1,
    }
}

/// One more than the trees of these numbers have together, as far as it fits.
fn sum(sizes: &[u32], parts: &[u32]) -> u32 {
    let mut sum: u32 = 1;
    for part in parts {
        sum = sum.saturating_add(size_at(sizes, *part));
    }
    sum
}

fn size(sizes: &[u32], node: &Node) -> u32 {
    match node {
        Node::Absurd => 1,
        Node::Farkas(_) => 1,
        Node::Linear(_) => 1,
        Node::Branch(_, parts) => sum(sizes, parts.as_slice()),
    }
}

/// How many nodes the tree of each node has, unfolded, as far as it fits.
pub fn sizes(alloc: Global, nodes: &[Node]) -> Result<Vec<u32>, Memory> {
    let mut out = Vec::with_capacity(alloc, nodes.len())?;
    for node in nodes {
        let size = size(out.as_slice(), node);
        out.push(size)?;
    }
    Ok(out)
}
