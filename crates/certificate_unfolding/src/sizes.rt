//! How large the trees of a table are, each counted to just above the limit.

ghost use Rattle.std.specs.Prelude.{◌≡◌, ◌+◌, [], IfOk, map, min, slice_index_or};
ghost use Rattle.certificate_unfolding.specs.Sizes.{size_in, sizes_behind, sum_in};
ghost use Rattle.shared_certificates.specs.Nodes.{node_view};

use shared_certificates::Node;
use st_memory::Memory;
use std::alloc::Global;

/// A certificate has at most so many trees.
pub const MOST_TREES: u32 = 100_000;

/// The size of a number's tree; where there is none, that of a leaf.
pub fn size_at(sizes: &[u32], number: u32) -> u32
    ensures { result ≡ slice_index_or sizes.now number 1 }
{
    match sizes.get(number as usize) {
        Some(size) => *size,
        None => 1,
    }
}

/// The sum, or just above the limit where it is larger.
fn limited_sum(a: u32, b: u32) -> u32
    ensures { result ≡ min (a + b) 100001 }
{
    a.saturating_add(b).min(MOST_TREES + 1)
}

/// One more than the trees of these numbers have together.
fn sum(sizes: &[u32], parts: &[u32]) -> u32
    ensures { result ≡ min (1 + sum_in sizes.now parts.now) 100001 }
{
    let mut sum = 1;
    for part in parts {
        sum = limited_sum(sum, size_at(sizes, *part));
    }
    sum
}

fn size(sizes: &[u32], node: &Node) -> u32
    ensures { result ≡ size_in sizes.now (node_view node.now) }
{
    match node {
        Node::Absurd => 1,
        Node::Farkas(_) => 1,
        Node::Linear(_) => 1,
        Node::Branch(_, parts) => sum(sizes, parts.as_slice()),
    }
}

/// The sizes of trees, by number.
pub fn sizes(alloc: Global, nodes: &[Node]) -> Result<Vec<u32>, Memory>
    ensures { IfOk result (λ v. v.items ≡ sizes_behind [] (map node_view nodes.now)) }
{
    let mut out = Vec::with_capacity(alloc, nodes.len())?;
    for node in nodes {
        let size = size(out.as_slice(), node);
        out.push(size)?;
    }
    Ok(out)
}
