//! Which formulas are known to last under decisions: each stays as it is, and is one part of a conjunction. Most conjuncts of a list
//! last under most decisions, so this is asked before anything else. A number's word has a bit for each of the first decisions.

ghost use Rattle.std.specs.Prelude.{◌≡◌, ◌⊎◌, ◌<◌, ℕ, List, length, slice_index_or, Some, true};
ghost use Rattle.std.specs.Int.{bit_at};
ghost use Rattle.st_form.specs.Formula.{more, none};
ghost use Rattle.st_form.specs.Simple.{parts, simple};
ghost use Rattle.form_table.specs.Table.{Is, formula};
ghost use Rattle.form_table.specs.Nodes.{formulas_in};
ghost use Rattle.form_table.specs.Contents.{Choice, decision_at};
ghost use Rattle.form_table.specs.Memory.{Last};

use crate::nodes::Node;
use crate::stores::Store;
use st_memory::Memory;

/// Of decisions from this number on nothing is kept.
const DECISIONS: u32 = 64;

/// Whether a formula is known to last under a decision.
pub fn is_lasting(words: &[u64], decision: u32, number: u32) -> bool
    ensures { result ≡ true → bit_at (slice_index_or words.now number 0) decision ≡ 1 }
{
    if decision >= DECISIONS {
        return false;
    }
    match words.get(number as usize) {
        None => false,
        Some(word) => (*word >> decision) & 1 == 1,
    }
}

fn with_bit(word: u64, bit: u32) -> u64
    requires { bit < 64 }
    ensures { (e : ℕ) → bit_at result e ≡ 1 → (bit_at word e ≡ 1) ⊎ (e ≡ bit) }
{
    word | (1 << bit)
}

fn mark(words: &mut Vec<u64>, decision: u32, number: u32) -> Result<(), Memory>
    requires { decision < 64 }
    ensures { (n e : ℕ) → bit_at (slice_index_or words.new.items n 0) e ≡ 1
        → (bit_at (slice_index_or words.old.items n 0) e ≡ 1) ⊎ ((n ≡ number) × (e ≡ decision)) }
{
    let place = number as usize;
    if place >= words.len() {
        words.resize(place + 1, 0)?;
    }
    let word = with_bit(words[place], decision);
    words[place] = word;
    Ok(())
}

/// Whether a formula is one part of a conjunction.
#[tactic(auto, using(crate::proofs::Taking::taking))]
fn is_single(store: &Store, number: u32) -> bool
    requires { number < length (formulas_in store.now) }
    ensures { result ≡ true → parts true (formula (formulas_in store.now) number) ≡ Some (more (formula (formulas_in store.now) number) none) }
{
    match store.node(number) {
        Node::Truth(_) => false,
        Node::Row(_) => true,
        Node::Equal(_) => true,
        Node::BoolVar(_, _) => true,
        Node::At(_, _) => true,
        Node::And(_, _) => false,
        Node::Or(_, _) => true,
    }
}

/// Keeps it where a formula lasts under a decision, by what it is under it.
pub fn note(
    store: &Store,
    words: &mut Vec<u64>,
    decision: u32,
    number: u32,
    made: u32,
) -> Result<(), Memory>
    requires { number < length (formulas_in store.now) }
    ensures { (cs : List Choice) → Last (formulas_in store.now) cs words.old.items
        → Is (formulas_in store.now) made (simple (decision_at cs decision) (formula (formulas_in store.now) number) true)
        → Last (formulas_in store.now) cs words.new.items }
{
    if decision >= DECISIONS {
        return Ok(());
    }
    if made != number {
        return Ok(());
    }
    if !is_single(store, number) {
        return Ok(());
    }
    mark(words, decision, number)
}
