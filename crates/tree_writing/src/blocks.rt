//! Trees of a table and blocks, written as long as the text is short enough to be checked.
//!
//! Whether it is is looked at behind each tree, and before each copy: a text that is too long is so by one leaf at most.

ghost use Rattle.std.specs.Prelude.{◌≡◌, ◌<◌, ◌≤◌, ◌++◌, All, IfOk, length, slice_range, true};
ghost use Rattle.st_certificate.specs.Tree.{branch};
ghost use Rattle.cert_text.specs.Spelling.{block_text, tree_text, trees_text};
ghost use Rattle.tree_table.specs.Table.{listed, step_of, tree};
ghost use Rattle.tree_table.specs.Nodes.{trees_in};
ghost use Rattle.tree_writing.specs.Standing.{AreWithin, Goes, Holds, IsWritten};

use crate::leaves::{push_leaf, push_step};
use crate::memo::{Place, Places, keep, recall};
use crate::words::{MOST, is_short, push_number, push_text};
use st_memory::Memory;
use std::alloc::Global;
use tree_table::{Kind, Step, TreeTable};

/// Appends a part of the text itself, where the text stays short. It is copied twice, each time at once: byte by byte it would take
/// twenty times as many instructions.
fn push_copy(alloc: Global, text: &mut Vec<u8>, place: Place) -> Result<bool, Memory>
    requires { (place.from ≤ place.to) × (place.to ≤ length text.old.items) }
    ensures { IfOk result (λ fits. IsWritten (text.old.items ++ slice_range text.old.items place.from place.to) text.new.items fits) }
{
    if text.len().saturating_add(place.to - place.from) > MOST {
        return Ok(false);
    }
    let part = Vec::from_slice(alloc, &text[place.from..place.to])?;
    push_text(text, &part)?;
    Ok(true)
}

/// Appends the text of a number's tree, which is copied where it stands behind the begin of the block.
#[cycle(write)]
#[tactic(auto, using(crate::proofs::Going::goings))]
fn push_tree(
    alloc: Global,
    text: &mut Vec<u8>,
    places: &mut Places,
    start: usize,
    table: &TreeTable,
    number: u32,
) -> Result<bool, Memory>
    requires there { number < length (trees_in table.now) }
    requires holds { Holds (trees_in table.now) start text.old.items places.old.kept.items }
    ensures { IfOk result (λ fits. Goes (trees_in table.now) start (text.old.items ++ tree_text (tree (trees_in table.now) number)) text.new.items places.new.kept.items fits) }
{
    if let Some(place) = recall(places, start, number) {
        return push_copy(alloc, text, place);
    }
    let from = text.len();
    if !push_node(alloc, text, places, start, table, number)? {
        return Ok(false);
    }
    let to = text.len();
    keep(&mut places.kept, number, Place { from, to })?;
    Ok(true)
}

/// Appends the text of a number's tree, which doesn't stand there.
#[cycle(write)]
#[tactic(auto, using(tree_table::proofs::Reading::reading))]
fn push_node(
    alloc: Global,
    text: &mut Vec<u8>,
    places: &mut Places,
    start: usize,
    table: &TreeTable,
    number: u32,
) -> Result<bool, Memory>
    requires there { number < length (trees_in table.now) }
    requires holds { Holds (trees_in table.now) start text.old.items places.old.kept.items }
    ensures { IfOk result (λ fits. Goes (trees_in table.now) start (text.old.items ++ tree_text (tree (trees_in table.now) number)) text.new.items places.new.kept.items fits) }
{
    match table.node(number).kind {
        Kind::Absurd => {
            push_text(text, b"absurd")?;
            Ok(is_short(text))
        }
        Kind::Linear(from, count) => {
            push_leaf(text, table.picks(from, count))?;
            Ok(is_short(text))
        }
        Kind::Branch(step, from, count) => {
            let parts = table.parts(from, count);
            push_branch(alloc, text, places, start, table, number, step, parts)
        }
    }
}

/// Appends the text of a branch over trees, each of which has a number below this one.
#[cycle(write)]
#[tactic(auto, using(crate::proofs::Going::goings))]
fn push_branch(
    alloc: Global,
    text: &mut Vec<u8>,
    places: &mut Places,
    start: usize,
    table: &TreeTable,
    number: u32,
    step: Step,
    parts: &[u32],
) -> Result<bool, Memory>
    requires below { All (λ k. k < number) parts.now }
    requires there { number < length (trees_in table.now) }
    requires holds { Holds (trees_in table.now) start text.old.items places.old.kept.items }
    ensures { IfOk result (λ fits. Goes (trees_in table.now) start (text.old.items ++ tree_text (branch (step_of step) (listed (trees_in table.now) parts.now))) text.new.items
        places.new.kept.items fits) }
{
    push_step(text, step)?;
    if !push_parts(alloc, text, places, start, table, number, parts)? {
        return Ok(false);
    }
    push_text(text, b"}")?;
    Ok(is_short(text))
}

/// Appends the texts of trees, each of which has a number below this one.
#[cycle(write)]
#[tactic(auto, using(crate::proofs::Going::goings))]
fn push_parts(
    alloc: Global,
    text: &mut Vec<u8>,
    places: &mut Places,
    start: usize,
    table: &TreeTable,
    number: u32,
    parts: &[u32],
) -> Result<bool, Memory>
    requires below { All (λ k. k < number) parts.now }
    requires there { number < length (trees_in table.now) }
    requires holds { Holds (trees_in table.now) start text.old.items places.old.kept.items }
    ensures { IfOk result (λ fits. Goes (trees_in table.now) start (text.old.items ++ trees_text (listed (trees_in table.now) parts.now)) text.new.items
        places.new.kept.items fits) }
{
    for part in parts {
        if !push_tree(alloc, text, places, start, table, *part)? {
            return Ok(false);
        }
        push_text(text, b" ")?;
    }
    Ok(is_short(text))
}

/// Appends the one spelling of a block, and answers true; or false, where the text would be longer than 268,435,456 bytes, which
/// is the most that may be checked: then what was appended is of no use. What stands in the block already is copied.
#[tactic(auto, using(crate::proofs::Going::goings))]
pub fn write_block(
    alloc: Global,
    text: &mut Vec<u8>,
    places: &mut Places,
    table: &TreeTable,
    number: u32,
    root: u32,
) -> Result<bool, Memory>
    requires there { root < length (trees_in table.now) }
    requires within { AreWithin text.old.items places.old.kept.items }
    ensures written { IfOk result (λ fits. IsWritten (text.old.items ++ block_text number (tree (trees_in table.now) root)) text.new.items fits) }
    ensures within { IfOk result (λ fits. fits ≡ true → AreWithin text.new.items places.new.kept.items) }
{
    let start = text.len();
    push_text(text, b"cert ")?;
    push_number(text, u64::from(number))?;
    push_text(text, b" ")?;
    if !push_tree(alloc, text, places, start, table, root)? {
        return Ok(false);
    }
    push_text(text, b";\n")?;
    Ok(is_short(text))
}
