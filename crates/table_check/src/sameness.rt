//! Trees that the search made, compared with those of a table. What was found to be the same isn't compared again, so that the
//! comparison goes over numbers and not over the trees that they mean.

ghost use Rattle.std.specs.Prelude.{◌≡◌, ◌<◌, All, IfOk, length, map, true};
ghost use Rattle.st_certificate.specs.Tree.{impossible, linear, trees};
ghost use Rattle.tree_table.specs.Table.{listed, step_of, tree};
ghost use Rattle.tree_table.specs.Nodes.{trees_in};
ghost use Rattle.shared_certificates.specs.Nodes.{node_view, step_view, unfolded};
ghost use Rattle.table_check.specs.Nodes.{AreNodes, trees_by};
ghost use Rattle.table_check.specs.Same.{AreSame};

use crate::memo::{Same, is_known, keep};
use shared_certificates::{Node, Step};
use st_memory::Memory;
use tree_table::{Kind, TreeTable};

/// Whether two steps are the same.
fn is_step(step: &Step, other: tree_table::Step) -> bool
    ensures { result ≡ true → step_of other ≡ step_view step.now }
{
    match step {
        Step::Case(component) => other == tree_table::Step::Case(*component),
        Step::Truth(variable) => other == tree_table::Step::Truth(*variable),
        Step::Split(disjunction) => other == tree_table::Step::Split(*disjunction),
        Step::Cut(_) => false,
    }
}

/// Whether a number's tree is that of a false problem.
#[tactic(auto, using(tree_table::proofs::Reading::reading))]
fn is_absurd(made: &TreeTable, found: u32) -> bool
    requires { found < length (trees_in made.now) }
    ensures { result ≡ true → tree (trees_in made.now) found ≡ impossible }
{
    match made.node(found).kind {
        Kind::Absurd => true,
        Kind::Linear(_, _) => false,
        Kind::Branch(_, _, _) => false,
    }
}

/// Whether a number's tree is a leaf of these picks.
#[tactic(auto, using(tree_table::proofs::Reading::reading))]
fn is_linear(made: &TreeTable, found: u32, picks: &[(u32, i64)]) -> bool
    requires { found < length (trees_in made.now) }
    ensures { result ≡ true → tree (trees_in made.now) found ≡ linear picks.now }
{
    match made.node(found).kind {
        Kind::Linear(from, count) => made.picks(from, count) == picks,
        Kind::Absurd => false,
        Kind::Branch(_, _, _) => false,
    }
}

/// Whether a number's tree is what a node says.
#[cycle(is_same)]
#[tactic(auto, using(tree_table::proofs::Reading::reading))]
fn is_node(
    known: &mut Vec<Option<Same>>,
    turn: usize,
    made: &TreeTable,
    nodes: &[Node],
    found: u32,
    node: &Node,
) -> Result<bool, Memory>
    requires nodes { AreNodes nodes.now }
    requires there { found < length (trees_in made.now) }
    requires known { AreSame turn (trees_in made.now) (trees_by nodes.now) known.old.items }
    ensures known { IfOk result (λ _. AreSame turn (trees_in made.now) (trees_by nodes.now) known.new.items) }
    ensures same { IfOk result (λ yes. yes ≡ true → tree (trees_in made.now) found ≡ unfolded (trees_by nodes.now) (node_view node.now)) }
{
    match node {
        Node::Absurd => Ok(is_absurd(made, found)),
        Node::Farkas(_) => Ok(false),
        Node::Linear(picks) => Ok(is_linear(made, found, picks)),
        Node::Branch(step, parts) => match made.node(found).kind {
            Kind::Branch(other, from, count) => {
                if is_step(step, other) {
                    are_same(
                        known,
                        turn,
                        made,
                        nodes,
                        found,
                        made.parts(from, count),
                        parts,
                    )
                } else {
                    Ok(false)
                }
            }
            Kind::Absurd => Ok(false),
            Kind::Linear(_, _) => Ok(false),
        },
    }
}

/// Whether trees whose numbers are below this one are those of other numbers, each in its place.
#[cycle(is_same)]
fn are_same(
    known: &mut Vec<Option<Same>>,
    turn: usize,
    made: &TreeTable,
    nodes: &[Node],
    number: u32,
    found: &[u32],
    given: &[u32],
) -> Result<bool, Memory>
    requires nodes { AreNodes nodes.now }
    requires there { number < length (trees_in made.now) }
    requires below { All (λ k. k < number) found.now }
    requires known { AreSame turn (trees_in made.now) (trees_by nodes.now) known.old.items }
    ensures known { IfOk result (λ _. AreSame turn (trees_in made.now) (trees_by nodes.now) known.new.items) }
    ensures same { IfOk result (λ yes. yes ≡ true → listed (trees_in made.now) found.now ≡ trees (map (tree (trees_by nodes.now)) given.now)) }
{
    if found.len() != given.len() {
        return Ok(false);
    }
    for (place, part) in found.iter().enumerate() {
        if !is_same(known, turn, made, nodes, *part, given[place])? {
            return Ok(false);
        }
    }
    Ok(true)
}

/// Whether a number's tree is the one that another number has in a table. What is found is remembered for this turn.
#[cycle(is_same)]
pub fn is_same(
    known: &mut Vec<Option<Same>>,
    turn: usize,
    made: &TreeTable,
    nodes: &[Node],
    found: u32,
    given: u32,
) -> Result<bool, Memory>
    requires nodes { AreNodes nodes.now }
    requires there { found < length (trees_in made.now) }
    requires known { AreSame turn (trees_in made.now) (trees_by nodes.now) known.old.items }
    ensures known { IfOk result (λ _. AreSame turn (trees_in made.now) (trees_by nodes.now) known.new.items) }
    ensures same { IfOk result (λ yes. yes ≡ true → tree (trees_in made.now) found ≡ tree (trees_by nodes.now) given) }
{
    if is_known(known, turn, found, given) {
        return Ok(true);
    }
    let Some(node) = nodes.get(given as usize) else {
        return Ok(false);
    };
    if !is_node(known, turn, made, nodes, found, node)? {
        return Ok(false);
    }
    keep(known, turn, found, given)?;
    Ok(true)
}
