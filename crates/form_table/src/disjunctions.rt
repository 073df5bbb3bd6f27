//! Disjunctions among conjuncts, by their order.

ghost use Rattle.std.specs.Prelude.{◌≡◌, ◌+◌, ◌<◌, IfSome, length, take, drop};
ghost use Rattle.std.specs.Option.{option_map};
ghost use Rattle.st_form.specs.Formula.{none};
ghost use Rattle.farkas_check.specs.Problem.{disjuncts_of, in_place, split_from};
ghost use Rattle.form_table.specs.Table.{AreThere, formula, listed};
ghost use Rattle.form_table.specs.Nodes.{formulas_in};

use crate::nodes::Node;
use crate::stores::Store;

/// The disjuncts of a disjunction.
#[tactic(auto, using(crate::proofs::Dividing::dividing))]
fn disjuncts(store: &Store, number: u32) -> Option<&[u32]>
    requires { number < length (formulas_in store.now) }
    ensures exact { option_map (λ ns. listed (formulas_in store.now) ns.now) result ≡ disjuncts_of (formula (formulas_in store.now) number) }
    ensures there { IfSome result (λ ns. AreThere (formulas_in store.now) ns.now) }
{
    match store.node(number) {
        Node::Truth(_) => None,
        Node::Row(_) => None,
        Node::Equal(_) => None,
        Node::BoolVar(_, _) => None,
        Node::At(_, _) => None,
        Node::And(_, _) => None,
        Node::Or(from, count) => Some(store.parts(from, count)),
    }
}

/// The place of the k-th disjunction, and its disjuncts.
pub fn find_disjunction<'a>(store: &'a Store, parts: &[u32], k: u32) -> Option<(usize, &'a [u32])>
    requires { AreThere (formulas_in store.now) parts.now }
    ensures found { option_map (λ p. in_place (listed (formulas_in store.now) (take p.0 parts.now)) (listed (formulas_in store.now) p.1.now) (listed (formulas_in store.now) (drop (p.0 + 1) parts.now))) result
        ≡ split_from none k (listed (formulas_in store.now) parts.now) }
    ensures within { IfSome result (λ p. p.0 < length parts.now) }
    ensures there { IfSome result (λ p. AreThere (formulas_in store.now) p.1.now) }
{
    let mut left = k;
    for (place, part) in parts.iter().enumerate() {
        if let Some(disjuncts) = disjuncts(store, *part) {
            if left == 0 {
                return Some((place, disjuncts));
            }
            left -= 1;
        }
    }
    None
}
