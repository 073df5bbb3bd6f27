//! The run of a refutation as a schedule: the values at the beginning, and then the moves. `trace` reads it.

ghost use Rattle.std.specs.Prelude.{◌≡◌, length};

use crate::subject::Subject;
use clause_texts::Sentence;
use invariant_search::Run;
use schedule_texts::{move_text, part_text};
use st_form::TransName;
use st_memory::Memory;
use st_program::{Datum, NameTable};
use std::alloc::Global;
use step_report::push_text;

/// The value of a variable at the beginning. `variables` is the number of variables.
fn value_text(
    alloc: Global,
    names: &NameTable,
    variables: u32,
    variable: u32,
    value: Datum,
) -> Result<Vec<u8>, Memory>
    requires { variables ≡ length names.now.variables }
{
    let mut out = Vec::new(alloc);
    if variable < variables {
        push_text(&mut out, names.variable_name(variable).as_bytes())?;
    }
    let value = match value {
        Datum::Number(number) => format!(in alloc; " = {number};")?,
        Datum::Truth(truth) => format!(in alloc; " = {truth};")?,
    };
    push_text(&mut out, value.as_bytes())?;
    Ok(out)
}

/// A move behind the values.
fn move_unit(alloc: Global, names: &NameTable, name: TransName) -> Result<String, Memory> {
    let mut text = move_text(alloc, names, name)?;
    text.push_str(";")?;
    Ok(text)
}

/// The schedule of a run of the program.
pub(crate) fn schedule_text(
    alloc: Global,
    subject: &Subject,
    run: &Run,
) -> Result<Vec<u8>, Memory> {
    let mut out = Sentence::behind(alloc, 0);
    for (variable, value) in run.store.iter().enumerate() {
        if let Ok(variable) = u32::try_from(variable) {
            let text = value_text(alloc, &subject.names, subject.variables, variable, *value)?;
            out.push_unit(&text)?;
        }
    }
    out.push_unit(b"::")?;
    for step in &run.moves {
        let text = move_unit(alloc, &subject.names, step.name)?;
        out.push_unit(text.as_bytes())?;
    }
    let mut text = out.text();
    push_text(&mut text, b"\n")?;
    Ok(text)
}

/// Appends the name of the transition with a number, as helpers are named.
pub(crate) fn push_transition(
    subject: &Subject,
    number: u32,
    out: &mut Vec<u8>,
) -> Result<(), Memory> {
    if let Some(transition) = subject.system.transitions.get(number as usize)
        && let TransName::Step { occ, part } = transition.name
        && let Some(label) = subject.names.statement_name(occ)
    {
        push_text(out, label.as_bytes())?;
        push_text(out, part_text(part).as_bytes())?;
    }
    Ok(())
}
