//! What a cube says of variables, as texts.

ghost use Rattle.std.specs.Prelude.{◌≡◌, length};

use crate::fault::ClauseFault;
use crate::rows::{Comparison, row_text};
use control_cubes::{Cube, opposite};
use st_linear::Lin;
use st_memory::Memory;
use st_program::NameTable;
use std::alloc::Global;
use step_report::push_text;

/// A literal, and its negation.
#[derive(Drop)]
pub struct Literal {
    pub said: Vec<u8>,
    pub denied: Vec<u8>,
}

/// The name of a boolean variable, with a `~` in front where it is false. `variables` is the number of variables.
pub(crate) fn truth_text(
    alloc: Global,
    names: &NameTable,
    variables: u32,
    variable: u32,
    value: bool,
) -> Result<Vec<u8>, Memory>
    requires { variables ≡ length names.now.variables }
{
    let mut out = Vec::new(alloc);
    if !value {
        push_text(&mut out, b"~")?;
    }
    if variable < variables {
        push_text(&mut out, names.variable_name(variable).as_bytes())?;
    }
    Ok(out)
}

/// Whether one row is the other times -1, so that both together are an equation.
pub(crate) fn are_opposed(one: &Lin, other: &Lin) -> bool {
    one.constant().checked_neg() == Some(other.constant())
        && one.entries().len() == other.entries().len()
        && one.entries().iter().zip(other.entries()).all(|(entry, counter)| {
            entry.0 == counter.0 && entry.1.checked_neg() == Some(counter.1)
        })
}

/// Whether the first coefficient is above 0.
pub(crate) fn leads_positive(row: &Lin) -> bool {
    match row.entries().first() {
        Some(entry) => entry.1 > 0,
        None => false,
    }
}

/// The literal of a row, or of the equation that it makes with an opposed one.
fn row_literal(
    alloc: Global,
    names: &NameTable,
    variables: u32,
    row: &Lin,
    equation: bool,
) -> Result<Literal, ClauseFault>
    requires { variables ≡ length names.now.variables }
{
    let (said, denied) = if equation {
        (
            row_text(alloc, names, variables, row, Comparison::Equal)?,
            row_text(alloc, names, variables, row, Comparison::Unequal)?,
        )
    } else {
        let otherwise = opposite(alloc, row)?;
        (
            row_text(alloc, names, variables, row, Comparison::AtLeast)?,
            row_text(alloc, names, variables, &otherwise, Comparison::AtLeast)?,
        )
    };
    Ok(Literal { said, denied })
}

/// Appends the literals of rows; two opposed ones are one literal, where the first stands whose first coefficient is above 0.
fn push_rows(
    alloc: Global,
    names: &NameTable,
    variables: u32,
    rows: &[Lin],
    out: &mut Vec<Literal>,
) -> Result<(), ClauseFault>
    requires { variables ≡ length names.now.variables }
{
    for row in rows {
        let equation = rows.iter().any(|other| are_opposed(row, other));
        if equation && !leads_positive(row) {
            continue;
        }
        out.push(row_literal(alloc, names, variables, row, equation)?)?;
    }
    Ok(())
}

/// The literals of a cube but those of its places.
pub(crate) fn literals(
    alloc: Global,
    names: &NameTable,
    variables: u32,
    cube: &Cube,
) -> Result<Vec<Literal>, ClauseFault>
    requires { variables ≡ length names.now.variables }
{
    let mut out = Vec::new(alloc);
    for (variable, value) in &cube.truths {
        out.push(Literal {
            said: truth_text(alloc, names, variables, *variable, *value)?,
            denied: truth_text(alloc, names, variables, *variable, !*value)?,
        })?;
    }
    push_rows(alloc, names, variables, &cube.rows, &mut out)?;
    Ok(out)
}
