//! Trees of a table unfolded into certificates. Nothing is shared in a certificate, so that of a small table may be huge: ask
//! `is_modest` first.

ghost use Rattle.std.specs.Prelude.{◌≡◌, ◌<◌, All, IfOk, length};
ghost use Rattle.st_certificate.specs.Tree.{branch};
ghost use Rattle.st_certificate.specs.Plain.{plain, plain_trees};
ghost use Rattle.tree_table.specs.Table.{listed, step_of, tree};
ghost use Rattle.tree_table.specs.Nodes.{trees_in};

use crate::nodes::{Kind, Step};
use crate::tables::TreeTable;
use st_certificate::Certificate;
use st_memory::Memory;
use std::alloc::Global;

/// The certificate that is a number's tree.
#[cycle(certificate)]
#[tactic(auto, using(st_certificate::proofs::Nodes::all_nodes, crate::proofs::Reading::reading))]
pub fn certificate(alloc: Global, table: &TreeTable, number: u32) -> Result<Certificate, Memory>
    requires { number < length (trees_in table.now) }
    ensures { IfOk result (λ c. plain c ≡ tree (trees_in table.now) number) }
{
    match table.node(number).kind {
        Kind::Absurd => Ok(Certificate::Absurd),
        Kind::Linear(from, count) => {
            let picks = Vec::from_slice(alloc, table.picks(from, count))?;
            Ok(Certificate::Linear(picks))
        }
        Kind::Branch(step, from, count) => {
            let parts = certificates(alloc, table, number, table.parts(from, count))?;
            Ok(divided(step, parts))
        }
    }
}

/// The certificates that are these trees, each of which has a number below this one.
#[cycle(certificate)]
fn certificates(
    alloc: Global,
    table: &TreeTable,
    number: u32,
    parts: &[u32],
) -> Result<Vec<Certificate>, Memory>
    requires below { All (λ k. k < number) parts.now }
    requires there { number < length (trees_in table.now) }
    ensures { IfOk result (λ v. plain_trees v.items ≡ listed (trees_in table.now) parts.now) }
{
    let mut out = Vec::with_capacity(alloc, parts.len())?;
    for part in parts {
        out.push(certificate(alloc, table, *part)?)?;
    }
    Ok(out)
}

/// The certificate that makes this step.
#[tactic(auto, using(st_certificate::proofs::Nodes::nodes))]
fn divided(step: Step, parts: Vec<Certificate>) -> Certificate
    ensures { plain result ≡ branch (step_of step) (plain_trees parts.items) }
{
    match step {
        Step::Case(component) => Certificate::Case(component, parts),
        Step::Truth(var) => Certificate::Bool(var, parts),
        Step::Split(k) => Certificate::Split(k, parts),
    }
}
