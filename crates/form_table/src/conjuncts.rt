//! The conjuncts of a list, and the lines among them.

ghost use Rattle.std.specs.Prelude.{◌≡◌, ◌<◌, [], All, IfOk, length, map};
ghost use Rattle.farkas_leaf.specs.Lent.{lent_line};
ghost use Rattle.farkas_check.specs.Problem.{lines_of, lines_with};
ghost use Rattle.form_table.specs.Table.{AreThere, formula, listed};
ghost use Rattle.form_table.specs.Nodes.{formulas_in};
ghost use Rattle.form_table.specs.Lists.{IsList, conjuncts_of};
ghost use Rattle.form_table.specs.Lent.{lines_in};

use crate::nodes::Node;
use crate::stores::Store;
use farkas_leaf::LentLine;
use st_memory::Memory;
use std::alloc::Global;

/// The conjuncts of a list, whose numbers are below the list's.
#[tactic(auto, using(crate::proofs::Listing::listing))]
pub fn conjuncts(store: &Store, list: u32) -> &[u32]
    requires { IsList (formulas_in store.now) list }
    ensures exact { listed (formulas_in store.now) result.now ≡ conjuncts_of (formulas_in store.now) list }
    ensures below { All (λ k. k < list) result.now }
{
    match store.node(list) {
        Node::Truth(_) => &[],
        Node::Row(_) => &[],
        Node::Equal(_) => &[],
        Node::BoolVar(_, _) => &[],
        Node::At(_, _) => &[],
        Node::And(from, count) => store.parts(from, count),
        Node::Or(_, _) => &[],
    }
}

/// The line of a conjunct, where it is one, lent.
#[tactic(auto, using(crate::proofs::Listing::lining))]
fn line_of(store: &Store, number: u32) -> Option<LentLine<'_>>
    requires { number < length (formulas_in store.now) }
    ensures { lines_in result ≡ lines_with (formula (formulas_in store.now) number) [] }
{
    match store.node(number) {
        Node::Truth(_) => None,
        Node::Row(line) => Some(LentLine {
            form: store.line(line),
            equal: false,
        }),
        Node::Equal(line) => Some(LentLine {
            form: store.line(line),
            equal: true,
        }),
        Node::BoolVar(_, _) => None,
        Node::At(_, _) => None,
        Node::And(_, _) => None,
        Node::Or(_, _) => None,
    }
}

/// The lines of conjuncts, lent.
pub fn lines_of<'a>(
    alloc: Global,
    store: &'a Store,
    parts: &[u32],
) -> Result<Vec<LentLine<'a>>, Memory>
    requires { AreThere (formulas_in store.now) parts.now }
    ensures { IfOk result (λ v. map lent_line v.items ≡ lines_of (listed (formulas_in store.now) parts.now)) }
{
    let mut out = Vec::with_capacity(alloc, parts.len())?;
    for part in parts {
        if let Some(line) = line_of(store, *part) {
            out.push(line)?;
        }
    }
    Ok(out)
}
