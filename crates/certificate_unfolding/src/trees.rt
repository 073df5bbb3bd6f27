//! The tree of a number as a certificate. What a node refers to stands before it, so each part is looked for among fewer nodes.

ghost use Rattle.std.specs.Prelude.{◌≡◌, [], IfOk, map};
ghost use Rattle.st_certificate.specs.Plain.{plain, plain_trees};
ghost use Rattle.st_certificate.specs.Tree.{branch};
ghost use Rattle.shared_certificates.specs.Nodes.{node_view, step_view, tree, trees_of, unfolded};

use shared_certificates::{Node, Step};
use st_certificate::Certificate;
use st_memory::Memory;
use std::alloc::Global;

/// The certificate that makes this step.
#[tactic(auto, using(st_certificate::proofs::Nodes::nodes))]
fn divided(alloc: Global, step: &Step, parts: Vec<Certificate>) -> Result<Certificate, Memory>
    ensures { IfOk result (λ c. plain c ≡ branch (step_view step.now) (plain_trees parts.items)) }
{
    match step {
        Step::Case(component) => Ok(Certificate::Case(*component, parts)),
        Step::Truth(variable) => Ok(Certificate::Bool(*variable, parts)),
        Step::Split(disjunction) => Ok(Certificate::Split(*disjunction, parts)),
        Step::Cut(form) => {
            let form = Box::new(alloc, form.copy(alloc)?)?;
            Ok(Certificate::Cut(form, parts))
        }
    }
}

/// The certificate that is a node's tree, by the nodes before it.
#[cycle(numbered)]
#[tactic(auto, using(st_certificate::proofs::Nodes::all_nodes))]
fn certificate(alloc: Global, before: &[Node], node: &Node) -> Result<Certificate, Memory>
    ensures { IfOk result (λ c. plain c ≡ unfolded (trees_of [] (map node_view before.now)) (node_view node.now)) }
{
    match node {
        Node::Absurd => Ok(Certificate::Absurd),
        Node::Farkas(picks) => Ok(Certificate::Farkas(Vec::from_slice(alloc, picks)?)),
        Node::Linear(lines) => Ok(Certificate::Linear(Vec::from_slice(alloc, lines)?)),
        Node::Branch(step, parts) => {
            let parts = certificates(alloc, before, parts)?;
            divided(alloc, step, parts)
        }
    }
}

/// The certificates that are the trees of these numbers.
#[cycle(numbered)]
fn certificates(alloc: Global, nodes: &[Node], parts: &[u32]) -> Result<Vec<Certificate>, Memory>
    ensures { IfOk result (λ v. map plain v.items ≡ map (tree (trees_of [] (map node_view nodes.now))) parts.now) }
{
    let mut out = Vec::with_capacity(alloc, parts.len())?;
    for part in parts {
        out.push(numbered(alloc, nodes, *part)?)?;
    }
    Ok(out)
}

/// The certificate that is a number's tree; where there is no node of this number, that of a false problem.
#[cycle(numbered)]
#[tactic(auto, using(st_certificate::proofs::Nodes::all_nodes, crate::proofs::Unfolding::numbering))]
pub fn numbered(alloc: Global, nodes: &[Node], number: u32) -> Result<Certificate, Memory>
    ensures { IfOk result (λ c. plain c ≡ tree (trees_of [] (map node_view nodes.now)) number) }
{
    match nodes.get(number as usize) {
        Some(node) => certificate(alloc, &nodes[..number as usize], node),
        None => Ok(Certificate::Absurd),
    }
}
