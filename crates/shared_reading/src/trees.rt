//! The words of a tree.

ghost use Rattle.std.specs.Prelude.{◌≡◌, ◌≤◌, codes, length, map};
ghost use Rattle.st_linear.specs.Linear.{of_entries};
ghost use Rattle.st_certificate.specs.Tree.{by_case, by_split, by_truth};
ghost use Rattle.shared_certificates.specs.Nodes.{node_view};
ghost use Rattle.shared_certificates.specs.Reading.{all_of, alone, cut, cut_by, farkas_node, linear_node, node, numbered, numbered_parts, parts, reference, terms_len};
ghost use Rattle.shared_certificates.specs.Views.{bytes_of};
ghost use Rattle.shared_certificates.specs.Answers.{Gives};

use crate::numbers::{index, reference};
use crate::picks::{constant, lines, picks, terms};
use crate::words::is;
use shared_certificates::{Node, Refusal, Step};
use st_linear::Lin;
use std::alloc::Global;

fn references(alloc: Global, count: usize, words: &[&[u8]]) -> Result<Vec<u32>, Refusal>
    ensures { Gives (λ v. v.items) result (all_of (reference count) (map bytes_of words.now)) }
{
    let mut out = Vec::with_capacity(alloc, words.len())?;
    for word in words {
        let read = reference(count, word)?;
        out.push(read)?;
    }
    Ok(out)
}

/// The parts of a node, behind a colon.
fn parts(alloc: Global, count: usize, words: &[&[u8]]) -> Result<Vec<u32>, Refusal>
    ensures { Gives (λ v. v.items) result (parts count (map bytes_of words.now)) }
{
    match words {
        [colon, others @ ..] => {
            if is(colon, b":") {
                references(alloc, count, others)
            } else {
                Err(Refusal::Malformed)
            }
        }
        [] => Err(Refusal::Malformed),
    }
}

/// A number, and the parts behind it.
fn numbered(alloc: Global, count: usize, words: &[&[u8]]) -> Result<(u32, Vec<u32>), Refusal>
    ensures { Gives (λ p. (p.0, p.1.items)) result (numbered_parts count (map bytes_of words.now)) }
{
    match words {
        [first, others @ ..] => {
            let number = index(first)?;
            Ok((number, parts(alloc, count, others)?))
        }
        [] => Err(Refusal::Malformed),
    }
}

fn case(alloc: Global, count: usize, words: &[&[u8]]) -> Result<Node, Refusal>
    ensures { Gives node_view result (numbered count by_case (map bytes_of words.now)) }
{
    let (component, parts) = numbered(alloc, count, words)?;
    Ok(Node::Branch(Step::Case(component), parts))
}

fn truth(alloc: Global, count: usize, words: &[&[u8]]) -> Result<Node, Refusal>
    ensures { Gives node_view result (numbered count by_truth (map bytes_of words.now)) }
{
    let (variable, parts) = numbered(alloc, count, words)?;
    Ok(Node::Branch(Step::Truth(variable), parts))
}

fn split(alloc: Global, count: usize, words: &[&[u8]]) -> Result<Node, Refusal>
    ensures { Gives node_view result (numbered count by_split (map bytes_of words.now)) }
{
    let (disjunction, parts) = numbered(alloc, count, words)?;
    Ok(Node::Branch(Step::Split(disjunction), parts))
}

/// How many words stand before the colon.
fn terms_len(words: &[&[u8]]) -> usize
    ensures is { result ≡ terms_len (map bytes_of words.now) }
    ensures within { result ≤ length words.now }
{
    let mut n = 0;
    for word in words {
        if is(word, b":") {
            return n;
        }
        n += 1;
    }
    n
}

fn cut_node(
    alloc: Global,
    constant: &i128,
    terms: &[(u32, i128)],
    parts: Vec<u32>,
) -> Result<Node, Refusal>
    ensures { Gives node_view result (cut_by (of_entries constant.now terms.now) parts.items) }
{
    match Lin::of_entries(alloc, *constant, terms)? {
        Some(form) => Ok(Node::Branch(Step::Cut(Box::new(alloc, form)?), parts)),
        None => Err(Refusal::Malformed),
    }
}

fn cut(alloc: Global, count: usize, words: &[&[u8]]) -> Result<Node, Refusal>
    ensures { Gives node_view result (cut count (map bytes_of words.now)) }
{
    match words {
        [first, others @ ..] => {
            let constant = constant(first)?;
            let (front, behind) = others.split_at(terms_len(others));
            let terms = terms(alloc, front)?;
            let parts = parts(alloc, count, behind)?;
            cut_node(alloc, &constant, terms.as_slice(), parts)
        }
        [] => Err(Refusal::Malformed),
    }
}

fn alone(words: &[&[u8]]) -> Result<Node, Refusal>
    ensures { Gives node_view result (alone (map bytes_of words.now)) }
{
    match words {
        [] => Ok(Node::Absurd),
        [_, ..] => Err(Refusal::Malformed),
    }
}

fn farkas(alloc: Global, words: &[&[u8]]) -> Result<Node, Refusal>
    ensures { Gives node_view result (farkas_node (map bytes_of words.now)) }
{
    Ok(Node::Farkas(picks(alloc, words)?))
}

fn linear(alloc: Global, words: &[&[u8]]) -> Result<Node, Refusal>
    ensures { Gives node_view result (linear_node (map bytes_of words.now)) }
{
    Ok(Node::Linear(lines(alloc, words)?))
}

/// A node over so many trees.
#[tactic(auto, unfolding(shared_certificates::specs::Reading::node))]
pub fn node(alloc: Global, count: usize, words: &[&[u8]]) -> Result<Node, Refusal>
    ensures { Gives node_view result (node count (map bytes_of words.now)) }
{
    let [name, others @ ..] = words else {
        return Err(Refusal::Malformed);
    };
    if is(name, b"absurd") {
        alone(others)
    } else if is(name, b"farkas") {
        farkas(alloc, others)
    } else if is(name, b"linear") {
        linear(alloc, others)
    } else if is(name, b"case") {
        case(alloc, count, others)
    } else if is(name, b"bool") {
        truth(alloc, count, others)
    } else if is(name, b"split") {
        split(alloc, count, others)
    } else if is(name, b"cut") {
        cut(alloc, count, others)
    } else {
        Err(Refusal::Malformed)
    }
}
