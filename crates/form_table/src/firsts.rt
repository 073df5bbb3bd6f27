//! The first location and the first boolean variable of formulas, from left to right.

ghost use Rattle.std.specs.Prelude.{◌≡◌, ◌<◌, All, length};
ghost use Rattle.search_laws.specs.Moves.{first_place, first_place_of, first_truth, first_truth_of};
ghost use Rattle.form_table.specs.Table.{formula, listed};
ghost use Rattle.form_table.specs.Nodes.{formulas_in};

use crate::nodes::Node;
use crate::stores::Store;

#[cycle(first_place)]
#[tactic(auto, using(crate::proofs::Firsting::firsting))]
fn first_place(store: &Store, number: u32) -> Option<u32>
    requires { number < length (formulas_in store.now) }
    ensures { result ≡ first_place (formula (formulas_in store.now) number) }
{
    match store.node(number) {
        Node::Truth(_) => None,
        Node::Row(_) => None,
        Node::Equal(_) => None,
        Node::BoolVar(_, _) => None,
        Node::At(l, _) => Some(l),
        Node::And(from, count) => first_place_of(store, number, store.parts(from, count)),
        Node::Or(from, count) => first_place_of(store, number, store.parts(from, count)),
    }
}

/// The first location among parts, whose numbers are below this one.
#[cycle(first_place)]
pub fn first_place_of(store: &Store, number: u32, parts: &[u32]) -> Option<u32>
    requires there { number < length (formulas_in store.now) }
    requires below { All (λ k. k < number) parts.now }
    ensures { result ≡ first_place_of (listed (formulas_in store.now) parts.now) }
{
    for part in parts {
        if let Some(l) = first_place(store, *part) {
            return Some(l);
        }
    }
    None
}

#[cycle(first_truth)]
#[tactic(auto, using(crate::proofs::Firsting::firsting))]
fn first_truth(store: &Store, number: u32) -> Option<u32>
    requires { number < length (formulas_in store.now) }
    ensures { result ≡ first_truth (formula (formulas_in store.now) number) }
{
    match store.node(number) {
        Node::Truth(_) => None,
        Node::Row(_) => None,
        Node::Equal(_) => None,
        Node::BoolVar(v, _) => Some(v),
        Node::At(_, _) => None,
        Node::And(from, count) => first_truth_of(store, number, store.parts(from, count)),
        Node::Or(from, count) => first_truth_of(store, number, store.parts(from, count)),
    }
}

/// The first boolean variable among parts, whose numbers are below this one.
#[cycle(first_truth)]
pub fn first_truth_of(store: &Store, number: u32, parts: &[u32]) -> Option<u32>
    requires there { number < length (formulas_in store.now) }
    requires below { All (λ k. k < number) parts.now }
    ensures { result ≡ first_truth_of (listed (formulas_in store.now) parts.now) }
{
    for part in parts {
        if let Some(v) = first_truth(store, *part) {
            return Some(v);
        }
    }
    None
}
