//! A move is `-`, or a transition: its statement's label or else its number, counted from 1, and of a cooperation the part.

ghost use Rattle.std.specs.Prelude.{◌≡◌, IfOk};
ghost use Rattle.std.specs.String.{string_bytes};
ghost use Rattle.st_program.specs.Names.{statement_label};
ghost use Rattle.schedule_texts.specs.Written.{part_bytes, IsNamed, IsMoveText};

use st_form::{Part, TransName};
use st_memory::Memory;
use st_program::NameTable;
use std::alloc::Global;

/// What stands behind the name of a statement for a part of it.
pub fn part_text(part: Part) -> &'static str
    ensures { result.now ≡ part_bytes part }
{
    match part {
        Part::Whole => "",
        Part::Entry => ".entry",
        Part::Exit => ".exit",
    }
}

/// A part of a statement: the statement's label, or else its number, and behind it the part.
fn step_text(alloc: Global, names: &NameTable, occ: u32, part: Part) -> Result<String, Memory>
    ensures { IfOk result (λ s. IsNamed (statement_label occ names.now.labels) part (string_bytes s)) }
{
    match names.statement_name(occ) {
        Some(label) => {
            let mut text = String::from_str(alloc, label)?;
            text.push_str(part_text(part))?;
            Ok(text)
        }
        None => {
            let number = u64::from(occ) + 1;
            Ok(format!(in alloc; "{number}{}", part_text(part))?)
        }
    }
}

/// A move as a schedule writes it, without the `;` behind it.
pub fn move_text(alloc: Global, names: &NameTable, name: TransName) -> Result<String, Memory>
    ensures { IfOk result (λ s. IsMoveText names.now name (string_bytes s)) }
{
    match name {
        TransName::Idle => Ok(String::from_str(alloc, "-")?),
        TransName::Step { occ, part } => step_text(alloc, names, occ, part),
    }
}
