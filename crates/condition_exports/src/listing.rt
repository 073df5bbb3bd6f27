//! The list of conditions as text.

use crate::entries::{ConditionEntry, ConditionList};
use st_memory::Memory;
use std::alloc::Global;
use std::fmt::Write;

/// Appends what is shown: a case as its formulas, and of several cases that one of them holds.
fn push_shown(out: &mut String, cases: &[Vec<String>]) -> Result<(), Memory> {
    let several = cases.len() != 1;
    if several {
        out.push_str("  shown  one of these\n")?;
    }
    for (place, case) in cases.iter().enumerate() {
        for (index, text) in case.iter().enumerate() {
            match (several, index) {
                (true, 0) => writeln!(out, "    {:>2}.  {text}", place.saturating_add(1))?,
                (true, _) => writeln!(out, "         {text}")?,
                (false, _) => writeln!(out, "  shown  {text}")?,
            }
        }
    }
    Ok(())
}

fn push_entry(out: &mut String, entry: &ConditionEntry, conditions: usize) -> Result<(), Memory> {
    writeln!(
        out,
        "condition {} of {conditions}: {}",
        entry.number, entry.name
    )?;
    writeln!(out, "  {}", entry.says)?;
    for text in &entry.given {
        writeln!(out, "  given  {text}")?;
    }
    push_shown(out, &entry.shown)
}

/// The text of a list, an empty line between two conditions.
pub fn listed(alloc: Global, list: &ConditionList) -> Result<String, Memory> {
    let mut out = String::new(alloc);
    for (place, entry) in list.listed.iter().enumerate() {
        if 0 < place {
            out.push_str("\n")?;
        }
        push_entry(&mut out, entry, list.conditions)?;
    }
    Ok(out)
}
