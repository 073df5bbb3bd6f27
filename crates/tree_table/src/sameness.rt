//! Certificates compared with trees of a table. Nothing is unfolded, so a certificate that differs is left where it does.

ghost use Rattle.std.specs.Prelude.{◌≡◌, ◌<◌, length, true};
ghost use Rattle.st_certificate.specs.Tree.{branch, impossible, linear};
ghost use Rattle.st_certificate.specs.Plain.{plain, plain_trees};
ghost use Rattle.tree_table.specs.Table.{AreThere, listed, step_of, tree};
ghost use Rattle.tree_table.specs.Nodes.{trees_in};

use crate::nodes::{Kind, Step};
use crate::tables::TreeTable;
use st_certificate::Certificate;

/// Whether a certificate is a number's tree.
#[cycle(is_same)]
#[tactic(auto, using(st_certificate::proofs::Nodes::all_nodes))]
pub fn is_same(certificate: &Certificate, table: &TreeTable, number: u32) -> bool
    requires { number < length (trees_in table.now) }
    ensures { result ≡ true → tree (trees_in table.now) number ≡ plain certificate.now }
{
    match certificate {
        Certificate::Case(component, parts) => {
            is_branch(parts, table, number, Step::Case(*component))
        }
        Certificate::Bool(var, parts) => is_branch(parts, table, number, Step::Truth(*var)),
        Certificate::Split(k, parts) => is_branch(parts, table, number, Step::Split(*k)),
        Certificate::Cut(_, _) => false,
        Certificate::Absurd => is_absurd(table, number),
        Certificate::Farkas(_) => false,
        Certificate::Linear(picks) => is_linear(picks, table, number),
    }
}

/// Whether this step over these certificates is a number's tree.
#[cycle(is_same)]
#[tactic(auto, using(crate::proofs::Reading::reading))]
fn is_branch(certificates: &[Certificate], table: &TreeTable, number: u32, step: Step) -> bool
    requires { number < length (trees_in table.now) }
    ensures { result ≡ true → tree (trees_in table.now) number ≡ branch (step_of step) (plain_trees certificates.now) }
{
    match table.node(number).kind {
        Kind::Branch(other, from, count) => {
            if other == step {
                are_same(certificates, table, table.parts(from, count))
            } else {
                false
            }
        }
        Kind::Absurd => false,
        Kind::Linear(_, _) => false,
    }
}

/// Whether these certificates are the trees of these numbers.
#[cycle(is_same)]
fn are_same(certificates: &[Certificate], table: &TreeTable, parts: &[u32]) -> bool
    requires { AreThere (trees_in table.now) parts.now }
    ensures { result ≡ true → listed (trees_in table.now) parts.now ≡ plain_trees certificates.now }
{
    if certificates.len() != parts.len() {
        return false;
    }
    for (place, certificate) in certificates.iter().enumerate() {
        if !is_same(certificate, table, parts[place]) {
            return false;
        }
    }
    true
}

/// Whether a number's tree is that of a false problem.
#[tactic(auto, using(crate::proofs::Reading::reading))]
fn is_absurd(table: &TreeTable, number: u32) -> bool
    requires { number < length (trees_in table.now) }
    ensures { result ≡ true → tree (trees_in table.now) number ≡ impossible }
{
    match table.node(number).kind {
        Kind::Absurd => true,
        Kind::Linear(_, _) => false,
        Kind::Branch(_, _, _) => false,
    }
}

/// Whether a number's tree is a leaf of these picks.
#[tactic(auto, using(crate::proofs::Reading::reading))]
fn is_linear(picks: &[(u32, i64)], table: &TreeTable, number: u32) -> bool
    requires { number < length (trees_in table.now) }
    ensures { result ≡ true → tree (trees_in table.now) number ≡ linear picks.now }
{
    match table.node(number).kind {
        Kind::Linear(from, count) => table.picks(from, count) == picks,
        Kind::Absurd => false,
        Kind::Branch(_, _, _) => false,
    }
}
