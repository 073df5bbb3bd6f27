//! What formulas are under decisions, as far as it was found. The entries stand in a list that is searched by hash, with linear
//! probing (Knuth, The Art of Computer Programming, volume 3, 1998, section 6.4).

ghost use Rattle.std.specs.Prelude.{◌≡◌, [], List, IfSome, true};
ghost use Rattle.st_form.specs.Formula.{Formula};
ghost use Rattle.st_form.specs.Simple.{simple};
ghost use Rattle.form_table.specs.Table.{Is, formula};
ghost use Rattle.form_table.specs.Contents.{Choice, decision_at};
ghost use Rattle.form_table.specs.Memory.{AreEntries, IsEntry};

use hint_index::{folded, mixed};
use st_memory::Memory;
use std::alloc::Global;

const FEWEST: usize = 16384;

/// The number of a formula that a formula is under a decision.
#[derive(Clone, Copy)]
pub struct Entry {
    pub decision: u32,
    pub number: u32,
    pub simple: u32,
}

/// The entries, how many there are, and which formulas last under decisions.
#[derive(Drop)]
pub struct Memo {
    pub entries: Vec<Option<Entry>>,
    pub taken: usize,
    pub lasting: Vec<u64>,
}

/// A memo of nothing.
pub fn no_memo(alloc: Global) -> Memo
    ensures entries { result.entries.items ≡ [] }
    ensures lasting { result.lasting.items ≡ [] }
{
    Memo {
        entries: Vec::new(alloc),
        taken: 0,
        lasting: Vec::new(alloc),
    }
}

/// Forgets all entries.
pub fn forget(memo: &mut Memo)
    ensures entries { memo.new.entries.items ≡ [] }
    ensures lasting { memo.new.lasting.items ≡ [] }
{
    memo.entries.clear();
    memo.lasting.clear();
    memo.taken = 0;
}

/// Where an entry is looked for first.
fn start(entries: &[Option<Entry>], decision: u32, number: u32) -> usize {
    let word = u64::from(decision) << 32 | u64::from(number);
    folded(mixed(0, word)) as usize & entries.len().wrapping_sub(1)
}

/// The place of the entry, or the first free one.
fn place_of(entries: &[Option<Entry>], decision: u32, number: u32) -> usize {
    let mut place = start(entries, decision, number);
    for _ in 0..entries.len() {
        match entries.get(place) {
            None => return place,
            Some(None) => return place,
            Some(Some(entry)) => {
                if entry.number == number && entry.decision == decision {
                    return place;
                }
            }
        }
        place = place.wrapping_add(1) & entries.len().wrapping_sub(1);
    }
    place
}

/// What is remembered of a formula under a decision.
pub fn recall(entries: &[Option<Entry>], decision: u32, number: u32) -> Option<u32>
    ensures { (ts : List Formula) (cs : List Choice) → AreEntries ts cs entries.now
        → IfSome result (λ n. Is ts n (simple (decision_at cs decision) (formula ts number) true)) }
{
    match entries.get(place_of(entries, decision, number)) {
        None => None,
        Some(None) => None,
        Some(Some(entry)) => {
            if entry.number == number && entry.decision == decision {
                return Some(entry.simple);
            }
            None
        }
    }
}

#[tactic(auto, using(crate::proofs::Remembering::remembering))]
fn put(entries: &mut Vec<Option<Entry>>, entry: Entry)
    ensures { (ts : List Formula) (cs : List Choice) → AreEntries ts cs entries.old.items → IsEntry ts cs entry → AreEntries ts cs entries.new.items }
{
    let place = place_of(entries.as_slice(), entry.decision, entry.number);
    if place < entries.len() {
        entries[place] = Some(entry);
    }
}

/// Makes room for an entry more. Where there is none, the list begins anew at twice the length: what is asked for again is found
/// again, and lists double few times.
#[tactic(auto, using(crate::proofs::Remembering::remembering))]
fn widen(alloc: Global, memo: &mut Memo) -> Result<(), Memory>
    ensures entries { (ts : List Formula) (cs : List Choice) → AreEntries ts cs memo.old.entries.items → AreEntries ts cs memo.new.entries.items }
    ensures lasting { memo.new.lasting.items ≡ memo.old.lasting.items }
{
    if memo.taken >= memo.entries.len() / 2 {
        let count = memo.entries.len().saturating_mul(2).max(FEWEST);
        let free: Option<Entry> = None;
        memo.entries = vec![in alloc; free; count]?;
        memo.taken = 0;
    }
    Ok(())
}

/// Remembers what a formula is under a decision.
pub fn remember(alloc: Global, memo: &mut Memo, entry: Entry) -> Result<(), Memory>
    ensures entries { (ts : List Formula) (cs : List Choice) → AreEntries ts cs memo.old.entries.items → IsEntry ts cs entry → AreEntries ts cs memo.new.entries.items }
    ensures lasting { memo.new.lasting.items ≡ memo.old.lasting.items }
{
    widen(alloc, memo)?;
    put(&mut memo.entries, entry);
    memo.taken = memo.taken.saturating_add(1);
    Ok(())
}
