//! How large a branch is, by the sizes of its parts.

ghost use Rattle.std.specs.Prelude.{◌≡◌, ◌+◌, ◌≤◌, min, length};
ghost use Rattle.search_laws.specs.Sizes.{nodes_of, levels_of};
ghost use Rattle.tree_table.specs.Table.{AreThere, listed};
ghost use Rattle.tree_table.specs.Nodes.{trees_in};

use crate::nodes::Size;
use crate::tables::TreeTable;

/// A certificate has at most so many nodes.
pub(crate) const MOST_NODES: u32 = 100_000;

/// A certificate has at most so many levels.
pub(crate) const MOST_LEVELS: u32 = 400;

/// The size of a leaf.
pub(crate) const LEAF: Size = Size {
    nodes: 1,
    levels: 1,
};

/// The size of a branch over these parts.
pub(crate) fn branch_size(table: &TreeTable, parts: &[u32]) -> Size
    requires { AreThere (trees_in table.now) parts.now }
    ensures nodes { result.nodes ≡ min (1 + nodes_of (listed (trees_in table.now) parts.now)) 100001 }
    ensures levels { result.levels ≡ min (1 + levels_of (listed (trees_in table.now) parts.now)) 401 }
{
    let mut nodes = 1;
    let mut levels = 0;
    for part in parts {
        let size = table.node(*part).size;
        nodes = limited_sum(nodes, size.nodes, MOST_NODES + 1);
        levels = size.levels.max(levels);
    }
    Size {
        nodes,
        levels: limited_sum(1, levels, MOST_LEVELS + 1),
    }
}

/// The sum, or this limit where it is larger.
fn limited_sum(a: u32, b: u32, most: u32) -> u32
    ensures { result ≡ min (a + b) most }
{
    a.saturating_add(b).min(most)
}
