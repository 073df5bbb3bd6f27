//! The lists that a list is split into by one of its disjunctions: in each, one disjunct, or its parts, stands in the
//! disjunction's place.

ghost use Rattle.std.specs.Prelude.{◌≡◌, ◌+◌, ◌<◌, IfOk, OnOk, length, take, drop};
ghost use Rattle.st_form.specs.Formula.{more, none};
ghost use Rattle.st_form.specs.Simple.{append, opened};
ghost use Rattle.farkas_check.specs.Problem.{in_place, split_from};
ghost use Rattle.form_table.specs.Table.{AreThere, Extends, formula, listed};
ghost use Rattle.form_table.specs.Nodes.{formulas_in, parts_at};
ghost use Rattle.form_table.specs.Lists.{AreLists, AreSplit, IsList, conjuncts_of};

use crate::conjuncts::conjuncts;
use crate::disjunctions::find_disjunction;
use crate::nodes::Node;
use crate::pools::{Pool, join};
use crate::stores::Store;
use st_memory::Memory;
use std::alloc::Global;

/// The parts of a conjunction, or these numbers, which are the formula's alone.
#[tactic(auto, using(crate::proofs::Dividing::opening))]
fn opened<'a>(store: &'a Store, number: u32, alone: &'a [u32]) -> &'a [u32]
    requires there { number < length (formulas_in store.now) }
    requires alone { listed (formulas_in store.now) alone.now ≡ more (formula (formulas_in store.now) number) none }
    requires alone_there { AreThere (formulas_in store.now) alone.now }
    ensures exact { listed (formulas_in store.now) result.now ≡ opened (formula (formulas_in store.now) number) }
    ensures there { AreThere (formulas_in store.now) result.now }
{
    match store.node(number) {
        Node::Truth(_) => alone,
        Node::Row(_) => alone,
        Node::Equal(_) => alone,
        Node::BoolVar(_, _) => alone,
        Node::At(_, _) => alone,
        Node::And(from, count) => store.parts(from, count),
        Node::Or(_, _) => alone,
    }
}

/// Makes a list of the conjuncts with a disjunct, or its parts, in the place of the disjunction.
fn in_place(
    store: &Store,
    out: &mut Vec<u32>,
    parts: &[u32],
    place: usize,
    number: u32,
) -> Result<(), Memory>
    requires parts { AreThere (formulas_in store.now) parts.now }
    requires place { place < length parts.now }
    requires number { number < length (formulas_in store.now) }
    ensures exact { OnOk result (listed (formulas_in store.now) out.new.items ≡ append (listed (formulas_in store.now) (take place parts.now))
        (append (opened (formula (formulas_in store.now) number)) (listed (formulas_in store.now) (drop (place + 1) parts.now)))) }
    ensures there { OnOk result (AreThere (formulas_in store.now) out.new.items) }
{
    let alone = [number];
    out.clear();
    out.extend_from_slice(&parts[..place])?;
    out.extend_from_slice(opened(store, number, &alone))?;
    out.extend_from_slice(&parts[place + 1..])?;
    Ok(())
}

/// The lists with each disjunct in turn.
fn split_by(
    alloc: Global,
    pool: &mut Pool,
    parts: &[u32],
    place: usize,
    disjuncts: &[u32],
) -> Result<Vec<u32>, Memory>
    requires parts { AreThere (formulas_in pool.old.store) parts.now }
    requires place { place < length parts.now }
    requires disjuncts { AreThere (formulas_in pool.old.store) disjuncts.now }
    ensures extends { Extends (formulas_in pool.old.store) (formulas_in pool.new.store) }
    ensures made { IfOk result (λ v. AreLists (formulas_in pool.new.store) v.items (in_place (listed (formulas_in pool.old.store) (take place parts.now))
        (listed (formulas_in pool.old.store) disjuncts.now) (listed (formulas_in pool.old.store) (drop (place + 1) parts.now)))) }
{
    let mut out = Vec::with_capacity(alloc, disjuncts.len())?;
    let mut whole = Vec::with_capacity(alloc, parts.len())?;
    for part in disjuncts {
        in_place(&pool.store, &mut whole, parts, place, *part)?;
        let list = join(alloc, pool, true, whole.as_slice())?;
        out.push(list)?;
    }
    Ok(out)
}

/// The lists that the k-th disjunction splits a list into, or None where there are fewer.
pub fn split(alloc: Global, pool: &mut Pool, list: u32, k: u32) -> Result<Option<Vec<u32>>, Memory>
    requires { IsList (formulas_in pool.old.store) list }
    ensures extends { Extends (formulas_in pool.old.store) (formulas_in pool.new.store) }
    ensures made { IfOk result (λ o. AreSplit (formulas_in pool.new.store) o (split_from none k (conjuncts_of (formulas_in pool.old.store) list))) }
{
    let parts = Vec::from_slice(alloc, conjuncts(&pool.store, list))?;
    match find_disjunction(&pool.store, parts.as_slice(), k) {
        None => Ok(None),
        Some((place, found)) => {
            let disjuncts = Vec::from_slice(alloc, found)?;
            let lists = split_by(alloc, pool, parts.as_slice(), place, disjuncts.as_slice())?;
            Ok(Some(lists))
        }
    }
}
