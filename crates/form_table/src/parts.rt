//! The parts of a conjunction or a disjunction, by number.

ghost use Rattle.std.specs.Prelude.{◌≡◌, ◌+◌, ◌<◌, ◌≤◌, IfOk, length, Some};
ghost use Rattle.st_form.specs.Formula.{more, none};
ghost use Rattle.st_form.specs.Simple.{parts, closed, gathered, joined_parts, TakesPart};
ghost use Rattle.form_table.specs.Table.{Is, Extends, AreThere, formula, listed};
ghost use Rattle.form_table.specs.Nodes.{formulas_in, parts_at};
ghost use Rattle.form_table.specs.Lists.{AllThere, listed_in};

use crate::nodes::Node;
use crate::pools::{Pool, join};
use crate::stores::Store;
use st_memory::Memory;
use std::alloc::Global;

/// Takes a part in, and says whether it leaves the whole open.
#[tactic(auto, using(crate::proofs::Taking::taking))]
pub fn take_part(store: &Store, out: &mut Vec<u32>, all: bool, part: u32) -> Result<bool, Memory>
    requires there { AreThere (formulas_in store.now) out.old.items }
    requires part { part < length (formulas_in store.now) }
    ensures takes { IfOk result
        (λ goes. TakesPart goes (listed (formulas_in store.now) out.old.items) (listed (formulas_in store.now) out.new.items)
        (parts all (formula (formulas_in store.now) part))) }
    ensures there { IfOk result (λ _. AreThere (formulas_in store.now) out.new.items) }
{
    match store.node(part) {
        Node::Truth(value) => { if value { Ok(all) } else { Ok(!all) } }
        Node::And(from, count) => {
            if all {
                put_parts(store, out, all, part, (from, count))
            } else {
                put(store, out, all, part)
            }
        }
        Node::Or(from, count) => {
            if all {
                put(store, out, all, part)
            } else {
                put_parts(store, out, all, part, (from, count))
            }
        }
        Node::Row(_) => put(store, out, all, part),
        Node::Equal(_) => put(store, out, all, part),
        Node::BoolVar(_, _) => put(store, out, all, part),
        Node::At(_, _) => put(store, out, all, part),
    }
}

/// Takes a part in as it is.
fn put(store: &Store, out: &mut Vec<u32>, all: bool, part: u32) -> Result<bool, Memory>
    requires whole { parts all (formula (formulas_in store.now) part) ≡ Some (more (formula (formulas_in store.now) part) none) }
    requires there { AreThere (formulas_in store.now) out.old.items }
    requires part { part < length (formulas_in store.now) }
    ensures takes { IfOk result
        (λ goes. TakesPart goes (listed (formulas_in store.now) out.old.items) (listed (formulas_in store.now) out.new.items)
        (parts all (formula (formulas_in store.now) part))) }
    ensures there { IfOk result (λ _. AreThere (formulas_in store.now) out.new.items) }
{
    out.push(part)?;
    Ok(true)
}

/// Takes the parts of a part in: so many from a place on.
fn put_parts(
    store: &Store,
    out: &mut Vec<u32>,
    all: bool,
    part: u32,
    at: (u32, u32),
) -> Result<bool, Memory>
    requires within { at.0 + at.1 ≤ length store.now.parts }
    requires parts { parts all (formula (formulas_in store.now) part) ≡ Some (listed (formulas_in store.now) (parts_at store.now.parts at.0 at.1)) }
    requires below { AreThere (formulas_in store.now) (parts_at store.now.parts at.0 at.1) }
    requires there { AreThere (formulas_in store.now) out.old.items }
    ensures takes { IfOk result
        (λ goes. TakesPart goes (listed (formulas_in store.now) out.old.items) (listed (formulas_in store.now) out.new.items)
        (parts all (formula (formulas_in store.now) part))) }
    ensures there { IfOk result (λ _. AreThere (formulas_in store.now) out.new.items) }
{
    out.extend_from_slice(store.parts(at.0, at.1))?;
    Ok(true)
}

/// The conjunction, or the disjunction, of these parts: one part is itself, and none are `True`, or `False`.
pub fn closed(alloc: Global, pool: &mut Pool, parts: &[u32], all: bool) -> Result<u32, Memory>
    requires { AreThere (formulas_in pool.old.store) parts.now }
    ensures extends { Extends (formulas_in pool.old.store) (formulas_in pool.new.store) }
    ensures made { IfOk result (λ n. Is (formulas_in pool.new.store) n (closed all (listed (formulas_in pool.old.store) parts.now))) }
{
    match parts {
        [] => Ok(pool.store.truth(all)),
        [only] => Ok(*only),
        _ => join(alloc, pool, all, parts),
    }
}

/// The parts of these formulas, or None where one of them decides.
pub fn gather(
    alloc: Global,
    store: &Store,
    parts: &[u32],
    all: bool,
) -> Result<Option<Vec<u32>>, Memory>
    requires { AreThere (formulas_in store.now) parts.now }
    ensures there { IfOk result (λ o. AllThere (formulas_in store.now) o) }
    ensures made { IfOk result (λ o. listed_in (formulas_in store.now) o ≡ gathered all (listed (formulas_in store.now) parts.now)) }
{
    let mut out = Vec::with_capacity(alloc, parts.len())?;
    for part in parts {
        if !take_part(store, &mut out, all, *part)? {
            return Ok(None);
        }
    }
    Ok(Some(out))
}

/// The conjunction (`all`) or disjunction of gathered parts.
pub fn joined(
    alloc: Global,
    pool: &mut Pool,
    gathered: Option<Vec<u32>>,
    all: bool,
) -> Result<u32, Memory>
    requires { AllThere (formulas_in pool.old.store) gathered }
    ensures extends { Extends (formulas_in pool.old.store) (formulas_in pool.new.store) }
    ensures made { IfOk result (λ n. Is (formulas_in pool.new.store) n (joined_parts all (listed_in (formulas_in pool.old.store) gathered))) }
{
    match gathered {
        None => Ok(pool.store.truth(!all)),
        Some(parts) => closed(alloc, pool, parts.as_slice(), all),
    }
}
