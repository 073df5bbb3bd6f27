//! Formulas under further decisions. What a conjunction or a disjunction is under a decision is found once and then remembered; a
//! literal is looked up in the decision, and rows and equations stay as they are.

ghost use Rattle.std.specs.Prelude.{◌≡◌, ◌+◌, ◌<◌, ◌≤◌, IfOk, All, true, length};
ghost use Rattle.st_form.specs.Simple.{simple, simples, gathered, parts, TakesPart};
ghost use Rattle.form_table.specs.Table.{Is, Extends, AreThere, formula, listed, joined};
ghost use Rattle.form_table.specs.Nodes.{formulas_in, parts_at};
ghost use Rattle.form_table.specs.Contents.{decision_at};
ghost use Rattle.form_table.specs.Lists.{AllThere, listed_in};
ghost use Rattle.form_table.specs.Memory.{choices, Remembers};

use crate::choices::{Decision, place_under, truth_under};
use crate::lasting::{is_lasting, note};
use crate::literals::settled;
use crate::memos::{Entry, Memo, recall, remember};
use crate::nodes::Node;
use crate::parts::{joined, take_part};
use crate::pools::Pool;
use st_memory::Memory;
use std::alloc::Global;

/// The number of the formula simplified again under a decision.
#[cycle(under)]
#[tactic(auto, using(crate::proofs::Making::growing, crate::proofs::Deciding::deciding, crate::proofs::Restricting::restricting))]
fn under_part(
    alloc: Global,
    pool: &mut Pool,
    memo: &mut Memo,
    decisions: &[Decision],
    decision: u32,
    number: u32,
) -> Result<u32, Memory>
    requires there { number < length (formulas_in pool.old.store) }
    requires remembers { Remembers (formulas_in pool.old.store) (choices decisions.now) memo.old }
    ensures extends { Extends (formulas_in pool.old.store) (formulas_in pool.new.store) }
    ensures remembers { Remembers (formulas_in pool.new.store) (choices decisions.now) memo.new }
    ensures made { IfOk result (λ n. Is (formulas_in pool.new.store) n
        (simple (decision_at (choices decisions.now) decision) (formula (formulas_in pool.old.store) number) true)) }
{
    match pool.store.node(number) {
        Node::Truth(_) => Ok(number),
        Node::Row(_) => Ok(number),
        Node::Equal(_) => Ok(number),
        Node::BoolVar(v, plus) => {
            let known = truth_under(decisions, decision, v);
            Ok(settled(&pool.store, number, known, plus))
        }
        Node::At(l, plus) => {
            let known = place_under(decisions, decision, l);
            Ok(settled(&pool.store, number, known, plus))
        }
        Node::And(from, count) => under_joined(
            alloc,
            pool,
            memo,
            decisions,
            decision,
            number,
            (from, count),
            true,
        ),
        Node::Or(from, count) => under_joined(
            alloc,
            pool,
            memo,
            decisions,
            decision,
            number,
            (from, count),
            false,
        ),
    }
}

/// The same of the conjunction (`all`) or disjunction of so many parts from a place on.
#[cycle(under)]
fn under_joined(
    alloc: Global,
    pool: &mut Pool,
    memo: &mut Memo,
    decisions: &[Decision],
    decision: u32,
    number: u32,
    at: (u32, u32),
    all: bool,
) -> Result<u32, Memory>
    requires there { number < length (formulas_in pool.old.store) }
    requires within { at.0 + at.1 ≤ length pool.old.store.parts }
    requires below { All (λ k. k < number) (parts_at pool.old.store.parts at.0 at.1) }
    requires same { formula (formulas_in pool.old.store) number ≡ joined all (listed (formulas_in pool.old.store) (parts_at pool.old.store.parts at.0 at.1)) }
    requires remembers { Remembers (formulas_in pool.old.store) (choices decisions.now) memo.old }
    ensures extends { Extends (formulas_in pool.old.store) (formulas_in pool.new.store) }
    ensures remembers { Remembers (formulas_in pool.new.store) (choices decisions.now) memo.new }
    ensures made { IfOk result (λ n. Is (formulas_in pool.new.store) n
        (simple (decision_at (choices decisions.now) decision) (formula (formulas_in pool.old.store) number) true)) }
{
    if let Some(known) = recall(memo.entries.as_slice(), decision, number) {
        return Ok(known);
    }
    let parts = Vec::from_slice(alloc, pool.store.parts(at.0, at.1))?;
    let gathered = under_parts(
        alloc,
        pool,
        memo,
        decisions,
        decision,
        number,
        parts.as_slice(),
        all,
    )?;
    let simple = joined(alloc, pool, gathered, all)?;
    let entry = Entry {
        decision,
        number,
        simple,
    };
    remember(alloc, memo, entry)?;
    Ok(simple)
}

/// Takes a part in as it is under the decision, and says whether it leaves the whole open.
#[cycle(under)]
fn take_changed(
    alloc: Global,
    pool: &mut Pool,
    memo: &mut Memo,
    decisions: &[Decision],
    decision: u32,
    out: &mut Vec<u32>,
    all: bool,
    part: u32,
) -> Result<bool, Memory>
    requires there { AreThere (formulas_in pool.old.store) out.old.items }
    requires part { part < length (formulas_in pool.old.store) }
    requires remembers { Remembers (formulas_in pool.old.store) (choices decisions.now) memo.old }
    ensures extends { Extends (formulas_in pool.old.store) (formulas_in pool.new.store) }
    ensures remembers { Remembers (formulas_in pool.new.store) (choices decisions.now) memo.new }
    ensures takes { IfOk result (λ goes. TakesPart goes (listed (formulas_in pool.new.store) out.old.items) (listed (formulas_in pool.new.store) out.new.items)
        (parts all (simple (decision_at (choices decisions.now) decision) (formula (formulas_in pool.old.store) part) true))) }
    ensures there { IfOk result (λ _. AreThere (formulas_in pool.new.store) out.new.items) }
{
    let simple = under_part(alloc, pool, memo, decisions, decision, part)?;
    note(&pool.store, &mut memo.lasting, decision, part, simple)?;
    let goes = take_part(&pool.store, out, all, simple)?;
    Ok(goes)
}

/// The same; a part that is known to last is taken in as it is.
#[cycle(under)]
#[tactic(auto, using(crate::proofs::Making::growing))]
fn take_under(
    alloc: Global,
    pool: &mut Pool,
    memo: &mut Memo,
    decisions: &[Decision],
    decision: u32,
    out: &mut Vec<u32>,
    all: bool,
    part: u32,
) -> Result<bool, Memory>
    requires there { AreThere (formulas_in pool.old.store) out.old.items }
    requires part { part < length (formulas_in pool.old.store) }
    requires remembers { Remembers (formulas_in pool.old.store) (choices decisions.now) memo.old }
    ensures extends { Extends (formulas_in pool.old.store) (formulas_in pool.new.store) }
    ensures remembers { Remembers (formulas_in pool.new.store) (choices decisions.now) memo.new }
    ensures takes { IfOk result (λ goes. TakesPart goes (listed (formulas_in pool.new.store) out.old.items) (listed (formulas_in pool.new.store) out.new.items)
        (parts all (simple (decision_at (choices decisions.now) decision) (formula (formulas_in pool.old.store) part) true))) }
    ensures there { IfOk result (λ _. AreThere (formulas_in pool.new.store) out.new.items) }
{
    if all {
        if is_lasting(memo.lasting.as_slice(), decision, part) {
            out.push(part)?;
            return Ok(true);
        }
    }
    take_changed(alloc, pool, memo, decisions, decision, out, all, part)
}

/// The gathered parts under the decision, or None where one of them decides. All have numbers below this one.
#[cycle(under)]
pub fn under_parts(
    alloc: Global,
    pool: &mut Pool,
    memo: &mut Memo,
    decisions: &[Decision],
    decision: u32,
    number: u32,
    parts: &[u32],
    all: bool,
) -> Result<Option<Vec<u32>>, Memory>
    requires there { number < length (formulas_in pool.old.store) }
    requires below { All (λ k. k < number) parts.now }
    requires remembers { Remembers (formulas_in pool.old.store) (choices decisions.now) memo.old }
    ensures extends { Extends (formulas_in pool.old.store) (formulas_in pool.new.store) }
    ensures remembers { Remembers (formulas_in pool.new.store) (choices decisions.now) memo.new }
    ensures there { IfOk result (λ o. AllThere (formulas_in pool.new.store) o) }
    ensures made { IfOk result (λ o. listed_in (formulas_in pool.new.store) o
        ≡ gathered all (simples (decision_at (choices decisions.now) decision) (listed (formulas_in pool.old.store) parts.now) true)) }
{
    let mut out = Vec::with_capacity(alloc, parts.len())?;
    for part in parts {
        if !take_under(alloc, pool, memo, decisions, decision, &mut out, all, *part)? {
            return Ok(None);
        }
    }
    Ok(Some(out))
}
