//! Whether two nodes are the same.

ghost use Rattle.std.specs.Prelude.{◌≡◌, ◌<◌, All, true};
ghost use Rattle.shared_certificates.specs.Nodes.{contradiction, division, farkas_sum, linear_sum, node_view, step_view};
ghost use Rattle.certificate_sharing.specs.Sharing.{HasPartsBelow};

use shared_certificates::{Node, Step};
use st_form::is_same_line;

fn is_same_step(one: &Step, other: &Step) -> bool
    ensures { result ≡ true → step_view one.now ≡ step_view other.now }
{
    match one {
        Step::Case(c) => match other {
            Step::Case(d) => c == d,
            Step::Truth(_) => false,
            Step::Split(_) => false,
            Step::Cut(_) => false,
        },
        Step::Truth(v) => match other {
            Step::Truth(w) => v == w,
            Step::Case(_) => false,
            Step::Split(_) => false,
            Step::Cut(_) => false,
        },
        Step::Split(k) => match other {
            Step::Split(l) => k == l,
            Step::Case(_) => false,
            Step::Truth(_) => false,
            Step::Cut(_) => false,
        },
        Step::Cut(f) => match other {
            Step::Cut(g) => is_same_line(f, g),
            Step::Case(_) => false,
            Step::Truth(_) => false,
            Step::Split(_) => false,
        },
    }
}

fn is_farkas(picks: &[(u32, u64)], other: &Node) -> bool
    ensures { result ≡ true → node_view other.now ≡ farkas_sum picks.now }
{
    match other {
        Node::Farkas(others) => others.as_slice() == picks,
        Node::Absurd => false,
        Node::Linear(_) => false,
        Node::Branch(_, _) => false,
    }
}

fn is_linear(lines: &[(u32, i64)], other: &Node) -> bool
    ensures { result ≡ true → node_view other.now ≡ linear_sum lines.now }
{
    match other {
        Node::Linear(others) => others.as_slice() == lines,
        Node::Absurd => false,
        Node::Farkas(_) => false,
        Node::Branch(_, _) => false,
    }
}

fn is_branch(step: &Step, parts: &[u32], other: &Node) -> bool
    ensures { result ≡ true → node_view other.now ≡ division (step_view step.now) parts.now }
{
    match other {
        Node::Branch(also, others) => {
            if !is_same_step(also, step) {
                return false;
            }
            others.as_slice() == parts
        }
        Node::Absurd => false,
        Node::Farkas(_) => false,
        Node::Linear(_) => false,
    }
}

fn is_absurd(other: &Node) -> bool
    ensures { result ≡ true → node_view other.now ≡ contradiction }
{
    match other {
        Node::Absurd => true,
        Node::Farkas(_) => false,
        Node::Linear(_) => false,
        Node::Branch(_, _) => false,
    }
}

/// Whether two nodes are the same.
pub fn is_same_node(one: &Node, other: &Node) -> bool
    ensures { result ≡ true → node_view other.now ≡ node_view one.now }
{
    match one {
        Node::Absurd => is_absurd(other),
        Node::Farkas(picks) => is_farkas(picks.as_slice(), other),
        Node::Linear(lines) => is_linear(lines.as_slice(), other),
        Node::Branch(step, parts) => is_branch(step, parts.as_slice(), other),
    }
}

fn are_below(count: u32, parts: &[u32]) -> bool
    ensures { result ≡ true → All (λ n. n < count) parts.now }
{
    for part in parts {
        if *part >= count {
            return false;
        }
    }
    true
}

/// Whether a node refers to trees of smaller numbers than this one alone.
pub fn has_parts_below(count: u32, node: &Node) -> bool
    ensures { result ≡ true → HasPartsBelow count (node_view node.now) }
{
    match node {
        Node::Absurd => true,
        Node::Farkas(_) => true,
        Node::Linear(_) => true,
        Node::Branch(_, parts) => are_below(count, parts.as_slice()),
    }
}
