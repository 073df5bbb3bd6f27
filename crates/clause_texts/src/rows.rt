//! Rows as comparisons: what is added stands on the left, what is taken away on the right, as `y1 >= y2 + 1` is the row
//! `y1 - y2 - 1 >= 0`.

ghost use Rattle.std.specs.Prelude.{◌≡◌, length};

use crate::fault::ClauseFault;
use st_linear::Lin;
use st_program::NameTable;
use std::alloc::Global;
use step_report::{push_sum, push_text};

/// How a linear form is compared with 0.
#[derive(Clone, Copy, Debug, PartialEq, Eq)]
pub enum Comparison {
    AtLeast,
    Equal,
    Unequal,
}

/// A comparison of two sums.
#[derive(Drop)]
struct Sides {
    left: Lin,
    sign: &'static [u8],
    right: Lin,
}

/// The number with the other sign.
fn opposite_number(number: i128) -> Result<i128, ClauseFault> {
    match number.checked_neg() {
        Some(number) => Ok(number),
        None => Err(ClauseFault::Unsaid),
    }
}

/// A form of these entries with this constant.
fn form(alloc: Global, entries: &[(u32, i128)], constant: i128) -> Result<Lin, ClauseFault> {
    match Lin::of_entries(alloc, constant, entries)? {
        Some(form) => Ok(form),
        None => Err(ClauseFault::Unsaid),
    }
}

/// The entries above 0, and those below 0 with the other sign.
fn parted(
    alloc: Global,
    entries: &[(u32, i128)],
) -> Result<(Vec<(u32, i128)>, Vec<(u32, i128)>), ClauseFault> {
    let mut above = Vec::new(alloc);
    let mut below = Vec::new(alloc);
    for (variable, coefficient) in entries {
        if *coefficient > 0 {
            above.push((*variable, *coefficient))?;
        } else {
            below.push((*variable, opposite_number(*coefficient)?))?;
        }
    }
    Ok((above, below))
}

/// The sign between two sides as they stand.
fn sign(comparison: Comparison) -> &'static [u8] {
    match comparison {
        Comparison::AtLeast => b" >= ".as_slice(),
        Comparison::Equal => b" = ".as_slice(),
        Comparison::Unequal => b" != ".as_slice(),
    }
}

/// The sign between two sides that are exchanged.
fn exchanged_sign(comparison: Comparison) -> &'static [u8] {
    match comparison {
        Comparison::AtLeast => b" <= ".as_slice(),
        Comparison::Equal | Comparison::Unequal => sign(comparison),
    }
}

/// The sides of a row that has entries of both signs.
fn mixed_sides(
    alloc: Global,
    above: &[(u32, i128)],
    below: &[(u32, i128)],
    constant: i128,
    comparison: Comparison,
) -> Result<Sides, ClauseFault> {
    if constant == -1 && comparison == Comparison::AtLeast {
        return Ok(Sides {
            left: form(alloc, above, 0)?,
            sign: b" > ".as_slice(),
            right: form(alloc, below, 0)?,
        });
    }
    if constant > 0 {
        return Ok(Sides {
            left: form(alloc, below, 0)?,
            sign: exchanged_sign(comparison),
            right: form(alloc, above, constant)?,
        });
    }
    Ok(Sides {
        left: form(alloc, above, 0)?,
        sign: sign(comparison),
        right: form(alloc, below, opposite_number(constant)?)?,
    })
}

fn sides_of(alloc: Global, row: &Lin, comparison: Comparison) -> Result<Sides, ClauseFault> {
    let (above, below) = parted(alloc, row.entries())?;
    let constant = row.constant();
    if above.is_empty() {
        return Ok(Sides {
            left: form(alloc, &below, 0)?,
            sign: exchanged_sign(comparison),
            right: Lin::constant_of(alloc, constant)?,
        });
    }
    if below.is_empty() {
        return Ok(Sides {
            left: form(alloc, &above, 0)?,
            sign: sign(comparison),
            right: Lin::constant_of(alloc, opposite_number(constant)?)?,
        });
    }
    mixed_sides(alloc, &above, &below, constant, comparison)
}

/// The text of a row that is compared with 0. `variables` is the number of variables.
pub fn row_text(
    alloc: Global,
    names: &NameTable,
    variables: u32,
    row: &Lin,
    comparison: Comparison,
) -> Result<Vec<u8>, ClauseFault>
    requires { variables ≡ length names.now.variables }
{
    let sides = sides_of(alloc, row, comparison)?;
    let mut out = Vec::new(alloc);
    push_sum(&mut out, names, variables, &sides.left)?;
    push_text(&mut out, sides.sign)?;
    push_sum(&mut out, names, variables, &sides.right)?;
    Ok(out)
}
