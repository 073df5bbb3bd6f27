//! Lists that a decision makes false by one of their literals. This is seen without simplifying the other conjuncts, and most
//! decisions of a component make a list false so.

ghost use Rattle.std.specs.Prelude.{◌≡◌, ◌<◌, None, Some, length, not, true, false};
ghost use Rattle.st_form.specs.Formula.{truth_value};
ghost use Rattle.st_form.specs.Simple.{gathered, simple, simples};
ghost use Rattle.form_table.specs.Table.{AreThere, formula, listed};
ghost use Rattle.form_table.specs.Nodes.{formulas_in};
ghost use Rattle.form_table.specs.Contents.{decision_at};
ghost use Rattle.form_table.specs.Memory.{choices};

use crate::choices::{Decision, place_under, truth_under};
use crate::nodes::Node;
use crate::stores::Store;

/// Whether a value is decided, and is not this one.
fn is_against(known: Option<bool>, value: bool) -> bool
    ensures { result ≡ true → known ≡ Some (not value) }
{
    match known {
        Some(other) => other != value,
        None => false,
    }
}

/// Whether a formula is a literal that the decision makes false.
#[tactic(auto, using(crate::proofs::Deciding::denying))]
fn is_denied(store: &Store, decisions: &[Decision], decision: u32, number: u32) -> bool
    requires { number < length (formulas_in store.now) }
    ensures { result ≡ true → simple (decision_at (choices decisions.now) decision) (formula (formulas_in store.now) number) true ≡ truth_value false }
{
    match store.node(number) {
        Node::Truth(_) => false,
        Node::Row(_) => false,
        Node::Equal(_) => false,
        Node::BoolVar(v, plus) => is_against(truth_under(decisions, decision, v), plus),
        Node::At(l, plus) => is_against(place_under(decisions, decision, l), plus),
        Node::And(_, _) => false,
        Node::Or(_, _) => false,
    }
}

/// Whether one of the conjuncts is a literal that the decision makes false.
pub fn is_refuted(store: &Store, decisions: &[Decision], decision: u32, parts: &[u32]) -> bool
    requires { AreThere (formulas_in store.now) parts.now }
    ensures { result ≡ true → gathered true (simples (decision_at (choices decisions.now) decision) (listed (formulas_in store.now) parts.now) true) ≡ None }
{
    for part in parts {
        if is_denied(store, decisions, decision, *part) {
            return true;
        }
    }
    false
}
