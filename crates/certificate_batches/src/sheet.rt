//! The lines that the search would write, one behind the other.

ghost use Rattle.std.specs.Prelude.{◌≡◌, ◌+◌, ◌<◌, ◌++◌, length, true, IfOk, OnOk};
ghost use Rattle.tree_table.specs.Table.{tree};
ghost use Rattle.tree_table.specs.Nodes.{trees_in};
ghost use Rattle.certificate_batches.specs.Following.{lead, line_of, last_line, IsSheet};

use st_memory::Memory;
use std::alloc::Global;
use tree_table::TreeTable;
use tree_writing::{Places, write_block};

/// Once more bytes are written, a new sheet is begun.
const MUCH: usize = 1_048_576;

/// A text, where the trees of a line stand in it, and where the last line begins.
#[derive(Drop)]
pub struct Sheet {
    pub text: Vec<u8>,
    pub places: Places,
    pub start: usize,
}

/// A sheet on which nothing is written.
pub fn empty_sheet(alloc: Global) -> Sheet
    ensures { IsSheet result }
{
    Sheet {
        text: Vec::new(alloc),
        places: Places::new(alloc),
        start: 0,
    }
}

/// Begins a new sheet where much is written. The memory of places is as large as the table of trees, so it isn't made anew for
/// each line.
fn turn(alloc: Global, sheet: &mut Sheet)
    requires { IsSheet sheet.old }
    ensures { IsSheet sheet.new }
{
    if sheet.text.len() > MUCH {
        *sheet = empty_sheet(alloc);
    }
}

/// Appends what stands in front of the block of the condition at a place.
fn push_lead(text: &mut Vec<u8>, place: usize) -> Result<(), Memory>
    ensures { OnOk result (text.new.items ≡ text.old.items ++ lead place) }
{
    if place == 0 {
        text.extend_from_slice(b"version 2;\n")?;
    } else {
        text.extend_from_slice(b"\n")?;
    }
    Ok(())
}

/// The number of the condition at a place.
fn number_of(place: usize) -> u32
    requires { place < 20000 }
    ensures { result ≡ place + 1 }
{
    place as u32 + 1
}

/// Writes the line of a number's tree for the condition at a place. Answers false where it is too long to be checked: then the
/// sheet is of no use.
pub fn write_line(
    alloc: Global,
    sheet: &mut Sheet,
    table: &TreeTable,
    place: usize,
    root: u32,
) -> Result<bool, Memory>
    requires there { root < length (trees_in table.now) }
    requires few { place < 20000 }
    requires sheet { IsSheet sheet.old }
    ensures { IfOk result (λ fits. fits ≡ true → IsSheet sheet.new × (last_line sheet.new ≡ line_of place (tree (trees_in table.now) root))) }
{
    turn(alloc, sheet);
    sheet.start = sheet.text.len();
    push_lead(&mut sheet.text, place)?;
    let number = number_of(place);
    write_block(
        alloc,
        &mut sheet.text,
        &mut sheet.places,
        table,
        number,
        root,
    )
}
