//! The equations that a guard has among its conjuncts, and what of a space meets them.

use crate::spaces::{Space, mixed};
use matrix_rows::part;
use st_form::Form;
use st_linear::{Lin, LinFault};
use st_memory::Memory;
use std::alloc::Global;

/// Appends the equations that hold where the formula has this truth value: of conjunctions that are true, and of disjunctions that
/// are false, those of all parts.
#[cycle(guard_equations)]
pub(crate) fn push_equations(
    alloc: Global,
    form: &Form,
    truth: bool,
    out: &mut Vec<Lin>,
) -> Result<(), Memory> {
    match form {
        Form::Equal(f) => {
            if truth {
                out.push(f.copy(alloc)?)?;
            }
            Ok(())
        }
        Form::Not(f) => push_equations(alloc, f, !truth, out),
        Form::And(fs) => push_all_equations(alloc, fs, truth, true, out),
        Form::Or(fs) => push_all_equations(alloc, fs, truth, false, out),
        Form::True | Form::False | Form::Row(_) | Form::BoolVar(_) | Form::At(_) => Ok(()),
    }
}

#[cycle(guard_equations)]
fn push_all_equations(
    alloc: Global,
    forms: &[Form],
    truth: bool,
    wanted: bool,
    out: &mut Vec<Lin>,
) -> Result<(), Memory> {
    if truth == wanted {
        for form in forms {
            push_equations(alloc, form, truth, out)?;
        }
    }
    Ok(())
}

/// A form's value at a vector, whose column for constants has this number.
pub(crate) fn value(form: &Lin, constant: u32, vector: &Lin) -> Result<i128, LinFault> {
    let Some(mut sum) = form
        .constant()
        .checked_mul(part(constant, vector.entries()))
    else {
        return Err(LinFault::TooLarge);
    };
    for entry in form.entries() {
        let product = entry.1.checked_mul(part(entry.0, vector.entries()));
        let Some(more) = product.and_then(|product| sum.checked_add(product)) else {
            return Err(LinFault::TooLarge);
        };
        sum = more;
    }
    Ok(sum)
}

/// The values of a form at the rows.
fn values(alloc: Global, rows: &[Lin], constant: u32, form: &Lin) -> Result<Vec<i128>, LinFault> {
    let mut out = Vec::new(alloc);
    for row in rows {
        out.push(value(form, constant, row)?)?;
    }
    Ok(out)
}

/// The rows that generate what of a space meets an equation: one of those that don't meet it clears the others.
fn met(alloc: Global, rows: Vec<Lin>, constant: u32, form: &Lin) -> Result<Vec<Lin>, LinFault> {
    let values = values(alloc, &rows, constant, form)?;
    let Some(chosen) = values.iter().position(|value| *value != 0) else {
        return Ok(rows);
    };
    let (Some(by), Some(pivot)) = (rows.get(chosen), values.get(chosen)) else {
        return Ok(rows);
    };
    let mut out = Vec::new(alloc);
    for (number, row) in rows.iter().enumerate() {
        if number != chosen
            && let Some(value) = values.get(number)
        {
            out.push(mixed(alloc, *pivot, row, *value, by)?)?;
        }
    }
    Ok(out)
}

/// The rows that generate what of a space meets all these equations.
pub(crate) fn all_met(
    alloc: Global,
    space: &Space,
    constant: u32,
    forms: &[Lin],
) -> Result<Vec<Lin>, LinFault> {
    let mut rows = Vec::new(alloc);
    for row in &space.rows {
        rows.push(row.copy(alloc)?)?;
    }
    for form in forms {
        rows = met(alloc, rows, constant, form)?;
    }
    Ok(rows)
}
