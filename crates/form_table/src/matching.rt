//! Whether a number is that of a formula which is to be made.

ghost use Rattle.std.specs.Prelude.{◌≡◌, true};
ghost use Rattle.st_form.specs.Formula.{row, equal, bool_var, at};
ghost use Rattle.st_form.specs.Simple.{signed};
ghost use Rattle.form_table.specs.Table.{Is, joined, listed};
ghost use Rattle.form_table.specs.Nodes.{formulas_in};

use crate::nodes::Node;
use crate::stores::Store;
use st_form::{Lin, is_same_line};

/// Whether a number is that of this variable under this sign.
#[tactic(auto, using(crate::proofs::Hinting::hinting))]
pub fn is_boolean(store: &Store, number: u32, var: u32, plus: bool) -> bool
    ensures { result ≡ true → Is (formulas_in store.now) number (signed plus (bool_var var)) }
{
    if !store.has(number) {
        return false;
    }
    match store.node(number) {
        Node::BoolVar(other, sign) => other == var && sign == plus,
        _ => false,
    }
}

/// Whether a number is that of this location under this sign.
#[tactic(auto, using(crate::proofs::Hinting::hinting))]
pub fn is_located(store: &Store, number: u32, location: u32, plus: bool) -> bool
    ensures { result ≡ true → Is (formulas_in store.now) number (signed plus (at location)) }
{
    if !store.has(number) {
        return false;
    }
    match store.node(number) {
        Node::At(other, sign) => other == location && sign == plus,
        _ => false,
    }
}

/// Whether a number is that of this row.
#[tactic(auto, using(crate::proofs::Hinting::hinting))]
pub fn is_row(store: &Store, number: u32, f: &Lin) -> bool
    ensures { result ≡ true → Is (formulas_in store.now) number (row f.now) }
{
    if !store.has(number) {
        return false;
    }
    match store.node(number) {
        Node::Row(line) => is_same_line(store.line(line), f),
        _ => false,
    }
}

/// Whether a number is that of this equation.
#[tactic(auto, using(crate::proofs::Hinting::hinting))]
pub fn is_equal(store: &Store, number: u32, f: &Lin) -> bool
    ensures { result ≡ true → Is (formulas_in store.now) number (equal f.now) }
{
    if !store.has(number) {
        return false;
    }
    match store.node(number) {
        Node::Equal(line) => is_same_line(store.line(line), f),
        _ => false,
    }
}

/// Whether a number is that of this conjunction or disjunction.
#[tactic(auto, using(crate::proofs::Hinting::hinting))]
pub fn is_joined(store: &Store, number: u32, all: bool, parts: &[u32]) -> bool
    ensures { result ≡ true → Is (formulas_in store.now) number (joined all (listed (formulas_in store.now) parts.now)) }
{
    if !store.has(number) {
        return false;
    }
    match store.node(number) {
        Node::And(from, count) => {
            if all {
                store.parts(from, count) == parts
            } else {
                false
            }
        }
        Node::Or(from, count) => {
            if all {
                false
            } else {
                store.parts(from, count) == parts
            }
        }
        _ => false,
    }
}
