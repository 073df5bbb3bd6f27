//! What an item may say of variables: their values, and comparisons that the program, its beginning and the goals make.

use crate::said::Said;
use clause_texts::{ClauseFault, ClauseWriter, Comparison};
use control_cubes::{CubeFault, opposite, truth_form};
use st_form::{Form, Lin, Variable};
use st_memory::Memory;
use std::alloc::Global;

/// A row that is compared with 0, as a formula.
fn comparison_form(alloc: Global, row: &Lin, comparison: Comparison) -> Result<Form, Memory> {
    let row = row.copy(alloc)?;
    match comparison {
        Comparison::Equal => Ok(Form::Equal(row)),
        Comparison::AtLeast | Comparison::Unequal => Ok(Form::Row(row)),
    }
}

/// The text of a row that is compared with 0; none where it can't be said.
fn comparison_text(
    alloc: Global,
    writer: &ClauseWriter<'_>,
    row: &Lin,
    comparison: Comparison,
) -> Result<Vec<u8>, Memory> {
    match writer.row(alloc, row, comparison) {
        Ok(text) => Ok(text),
        Err(ClauseFault::Unsaid) => Ok(Vec::new(alloc)),
        Err(ClauseFault::Memory) => Err(Memory),
    }
}

/// Appends a comparison of a row with 0, if it can be said and isn't there.
pub(crate) fn push_comparison(
    alloc: Global,
    writer: &ClauseWriter<'_>,
    row: &Lin,
    comparison: Comparison,
    out: &mut Vec<Said>,
) -> Result<(), Memory> {
    let text = comparison_text(alloc, writer, row, comparison)?;
    if !text.is_empty() && !out.iter().any(|said| said.text == text) {
        let form = comparison_form(alloc, row, comparison)?;
        out.push(Said::new(alloc, form, text)?)?;
    }
    Ok(())
}

/// Appends the two values of a boolean variable.
fn push_truths(
    alloc: Global,
    writer: &ClauseWriter<'_>,
    number: u32,
    out: &mut Vec<Said>,
) -> Result<(), Memory> {
    for value in [true, false] {
        let text = writer.truth(alloc, number, value)?;
        out.push(Said::new(alloc, truth_form(alloc, number, value)?, text)?)?;
    }
    Ok(())
}

/// All literals, the shortest first.
pub(crate) fn literals(
    alloc: Global,
    writer: &ClauseWriter<'_>,
    variables: &[Variable],
    pool: &[Lin],
) -> Result<Vec<Said>, CubeFault> {
    let mut out = Vec::new(alloc);
    for row in pool {
        push_comparison(alloc, writer, row, Comparison::Equal, &mut out)?;
    }
    for (number, variable) in variables.iter().enumerate() {
        if let Ok(number) = u32::try_from(number)
            && variable.truth
        {
            push_truths(alloc, writer, number, &mut out)?;
        }
    }
    for row in pool {
        push_comparison(alloc, writer, row, Comparison::AtLeast, &mut out)?;
        let otherwise = opposite(alloc, row)?;
        push_comparison(alloc, writer, &otherwise, Comparison::AtLeast, &mut out)?;
    }
    out.sort_by_key(|said| said.text.len())?;
    Ok(out)
}
