//! Copies of cubes, and cubes with one literal less.

use crate::cube::Cube;
use crate::fault::CubeFault;
use crate::rows::is_parallel;
use st_linear::Lin;
use st_memory::Memory;
use std::alloc::Global;

/// Equal rows.
pub(crate) fn copied_rows(alloc: Global, rows: &[Lin]) -> Result<Vec<Lin>, Memory> {
    let mut out = Vec::with_capacity(alloc, rows.len())?;
    for row in rows {
        out.push(row.copy(alloc)?)?;
    }
    Ok(out)
}

/// The rows that aren't parallel to this one.
fn other_rows(alloc: Global, rows: &[Lin], left_out: &Lin) -> Result<Vec<Lin>, Memory> {
    let mut out = Vec::with_capacity(alloc, rows.len())?;
    for row in rows {
        if !is_parallel(row, left_out) {
            out.push(row.copy(alloc)?)?;
        }
    }
    Ok(out)
}

fn other_truths(
    alloc: Global,
    truths: &[(u32, bool)],
    left_out: u32,
) -> Result<Vec<(u32, bool)>, Memory> {
    let mut out = Vec::with_capacity(alloc, truths.len())?;
    for truth in truths {
        if truth.0 != left_out {
            out.push(*truth)?;
        }
    }
    Ok(out)
}

impl Cube {
    /// An equal cube.
    pub fn copy(&self, alloc: Global) -> Result<Cube, Memory> {
        Ok(Cube {
            places: Vec::from_slice(alloc, &self.places)?,
            truths: Vec::from_slice(alloc, &self.truths)?,
            rows: copied_rows(alloc, &self.rows)?,
        })
    }

    /// The cube without the row that is parallel to this one.
    pub fn without_row(&self, alloc: Global, row: &Lin) -> Result<Cube, Memory> {
        Ok(Cube {
            places: Vec::from_slice(alloc, &self.places)?,
            truths: Vec::from_slice(alloc, &self.truths)?,
            rows: other_rows(alloc, &self.rows, row)?,
        })
    }

    /// The cube with this row in the place of the one that is parallel to it.
    pub fn with_row_instead(&self, alloc: Global, row: &Lin) -> Result<Cube, CubeFault> {
        let mut out = self.without_row(alloc, row)?;
        out.push_row(alloc, row)?;
        Ok(out)
    }

    /// The cube that doesn't speak of a boolean variable.
    pub fn without_truth(&self, alloc: Global, variable: u32) -> Result<Cube, Memory> {
        Ok(Cube {
            places: Vec::from_slice(alloc, &self.places)?,
            truths: other_truths(alloc, &self.truths, variable)?,
            rows: copied_rows(alloc, &self.rows)?,
        })
    }
}
