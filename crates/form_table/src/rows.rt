//! The rows among the conjuncts of a list. An equation gives two: its form, and its form times -1.

ghost use Rattle.std.specs.Prelude.{◌≡◌, ◌<◌, ◌++◌, ◌∷◌, [], IfOk, OnOk, length};
ghost use Rattle.st_linear.specs.Simple.{negated};
ghost use Rattle.farkas_check.specs.Problem.{rows_of, rows_with};
ghost use Rattle.form_table.specs.Table.{AreThere, formula, listed};
ghost use Rattle.form_table.specs.Nodes.{formulas_in};

use crate::nodes::Node;
use crate::stores::Store;
use st_form::Lin;
use st_memory::Memory;
use std::alloc::Global;

fn push_copy(alloc: Global, out: &mut Vec<Lin>, f: &Lin) -> Result<(), Memory>
    ensures { OnOk result (out.new.items ≡ out.old.items ++ f.now ∷ []) }
{
    out.push(f.copy(alloc)?)?;
    Ok(())
}

fn push_both(alloc: Global, out: &mut Vec<Lin>, f: &Lin) -> Result<(), Memory>
    ensures { OnOk result (out.new.items ≡ out.old.items ++ f.now ∷ negated f.now ∷ []) }
{
    out.push(f.copy(alloc)?)?;
    out.push(f.negated(alloc)?)?;
    Ok(())
}

/// Puts the rows of a conjunct behind others.
#[tactic(auto, using(crate::proofs::Rowing::rowing))]
fn push_rows(alloc: Global, out: &mut Vec<Lin>, store: &Store, number: u32) -> Result<(), Memory>
    requires { number < length (formulas_in store.now) }
    ensures { OnOk result (out.new.items ≡ out.old.items ++ rows_with (formula (formulas_in store.now) number) []) }
{
    match store.node(number) {
        Node::Truth(_) => Ok(()),
        Node::Row(line) => push_copy(alloc, out, store.line(line)),
        Node::Equal(line) => push_both(alloc, out, store.line(line)),
        Node::BoolVar(_, _) => Ok(()),
        Node::At(_, _) => Ok(()),
        Node::And(_, _) => Ok(()),
        Node::Or(_, _) => Ok(()),
    }
}

/// The rows of conjuncts.
pub fn rows_of(alloc: Global, store: &Store, parts: &[u32]) -> Result<Vec<Lin>, Memory>
    requires { AreThere (formulas_in store.now) parts.now }
    ensures { IfOk result (λ v. v.items ≡ rows_of (listed (formulas_in store.now) parts.now)) }
{
    let mut out = Vec::with_capacity(alloc, parts.len())?;
    for part in parts {
        push_rows(alloc, &mut out, store, *part)?;
    }
    Ok(out)
}
