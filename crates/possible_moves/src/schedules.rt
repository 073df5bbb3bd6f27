//! A schedule once more as text, in one line.

use formula_words::{Vocabulary, value};
use schedule_reader::Schedule;
use schedule_texts::move_text;
use st_memory::Memory;
use st_program::{Datum, NameTable};
use std::alloc::Global;

fn push_setting(
    alloc: Global,
    out: &mut String,
    variable: &str,
    datum: Datum,
) -> Result<(), Memory> {
    out.push_str(variable)?;
    out.push_str(" = ")?;
    out.push_str(&value(alloc, datum)?)?;
    out.push_str("; ")?;
    Ok(())
}

/// What stands in front of the moves: a value for each variable, and `::`.
pub(crate) fn beginning_text(
    alloc: Global,
    words: &Vocabulary,
    store: &[Datum],
) -> Result<String, Memory> {
    let mut out = String::new(alloc);
    for (variable, datum) in store.iter().enumerate() {
        let variable = u32::try_from(variable).unwrap_or(u32::MAX);
        push_setting(alloc, &mut out, words.variable(variable), *datum)?;
    }
    out.push_str("::")?;
    Ok(out)
}

/// A schedule as text.
pub(crate) fn schedule_text(
    alloc: Global,
    words: &Vocabulary,
    names: &NameTable,
    schedule: &Schedule,
) -> Result<String, Memory> {
    let mut out = beginning_text(alloc, words, &schedule.store)?;
    for name in &schedule.moves {
        out.push_str(" ")?;
        out.push_str(&move_text(alloc, names, *name)?)?;
        out.push_str(";")?;
    }
    Ok(out)
}
