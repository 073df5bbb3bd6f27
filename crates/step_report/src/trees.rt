//! The size of a certificate.

ghost use Rattle.std.specs.Prelude.{◌≡◌, ◌^◌, ◌<◌, map};
ghost use Rattle.search_laws.specs.Sizes.{nodes, nodes_of};
ghost use Rattle.st_certificate.specs.Plain.{plain};
ghost use Rattle.st_certificate.specs.Tree.{trees};

use st_certificate::Certificate;

/// The number of nodes of a certificate. One that is found has at most 100,000.
#[cycle(count)]
#[tactic(auto, using(st_certificate::proofs::Nodes::all_nodes))]
pub fn node_count(tree: &Certificate) -> u64
    requires { nodes (plain tree.now) < 2 ^ 64 }
    ensures { result ≡ nodes (plain tree.now) }
{
    match tree {
        Certificate::Absurd => 1,
        Certificate::Farkas(_) => 1,
        Certificate::Linear(_) => 1,
        Certificate::Case(_, parts) => 1 + count_all(parts),
        Certificate::Bool(_, parts) => 1 + count_all(parts),
        Certificate::Split(_, parts) => 1 + count_all(parts),
        Certificate::Cut(_, parts) => 1 + count_all(parts),
    }
}

#[cycle(count)]
fn count_all(parts: &[Certificate]) -> u64
    requires { nodes_of (trees (map plain parts.now)) < 2 ^ 64 }
    ensures { result ≡ nodes_of (trees (map plain parts.now)) }
{
    let mut count = 0;
    for part in parts {
        count += node_count(part);
    }
    count
}
