//! The equations of a space: the basis of the vectors that take each of its rows to 0.

ghost use Rattle.std.specs.Prelude.{◌≡◌, IfOk, IfSome};
ghost use Rattle.null_laws.specs.Bases.{AllMeet, IsRow};
ghost use Rattle.location_equations.specs.Below.{are_below};

use crate::spaces::Space;
use matrix_rows::Row;
use null_space::null_basis;
use st_linear::{Lin, LinFault};
use st_memory::Memory;
use std::alloc::Global;

/// Where control is at the location, the form is 0.
#[derive(Drop)]
pub struct LocationEquation {
    pub place: u32,
    pub form: Lin,
}

/// Whether all columns are below the width.
fn are_below(width: u32, entries: &[(u32, i128)]) -> bool
    ensures { result ≡ are_below width entries.now }
{
    for entry in entries {
        if entry.0 >= width {
            return false;
        }
    }
    true
}

/// A vector as a row of so many columns, if it has no more.
#[tactic(auto, using(crate::proofs::Belows::all_below))]
fn row_of(alloc: Global, width: u32, vector: &Lin) -> Result<Option<Row>, Memory>
    ensures { IfOk result (λ o. IfSome o (λ row. IsRow width row)) }
{
    let entries = vector.entries();
    if are_below(width, entries) {
        Ok(Some(Row::new(alloc, entries)?))
    } else {
        Ok(None)
    }
}

/// The rows of a space, but those with more columns, of which there are none.
#[tactic(auto, using(crate::proofs::Belows::all_added))]
fn rows_of(alloc: Global, width: u32, vectors: &[Lin]) -> Result<Vec<Row>, Memory>
    ensures { IfOk result (λ v. AllMeet (IsRow width) v.items) }
{
    let mut out = Vec::new(alloc);
    for vector in vectors {
        if let Some(row) = row_of(alloc, width, vector)? {
            out.push(row)?;
        }
    }
    Ok(out)
}

/// A row as a form, whose constant is the entry in the column with this number.
fn form_of(alloc: Global, constant: u32, row: &Row) -> Result<Option<Lin>, Memory> {
    let mut entries = Vec::new(alloc);
    for entry in row.entries() {
        if entry.0 < constant {
            entries.push(*entry)?;
        }
    }
    Lin::of_entries(alloc, row.at(constant), &entries)
}

/// Appends the equations of a space that has a vector; of a location to which control doesn't come, nothing is said.
pub(crate) fn push_equations_at(
    alloc: Global,
    place: u32,
    constant: u32,
    space: &Space,
    out: &mut Vec<LocationEquation>,
) -> Result<(), LinFault> {
    if space.rows.is_empty() {
        return Ok(());
    }
    let Some(width) = constant.checked_add(1) else {
        return Err(LinFault::TooLarge);
    };
    let rows = rows_of(alloc, width, &space.rows)?;
    for row in null_basis(alloc, width, width, rows)? {
        if let Some(form) = form_of(alloc, constant, &row)?
            && !form.entries().is_empty()
        {
            out.push(LocationEquation { place, form })?;
        }
    }
    Ok(())
}
