//! Affine spaces by vectors that generate them, in homogeneous columns: those of the variables, and behind them the one of the
//! constant. The rows are kept in echelon form as far as each is free from the first columns of those before it, so a vector is of the
//! space exactly where they clear it (M. Mueller-Olm and H. Seidl, A note on Karr's algorithm, ICALP 2004).

use matrix_rows::part;
use st_linear::{Lin, LinFault};
use std::alloc::Global;

/// A space of vectors.
#[derive(Drop)]
pub(crate) struct Space {
    pub(crate) rows: Vec<Lin>,
}

/// A form over the greatest common divisor of its coefficients.
fn primitive(alloc: Global, form: Lin) -> Result<Lin, LinFault> {
    let divisor = form.divisor();
    if divisor == 1 {
        return Ok(form);
    }
    Ok(form.divided(alloc, divisor)?)
}

/// x times one vector less y times another.
pub(crate) fn mixed(
    alloc: Global,
    x: i128,
    one: &Lin,
    y: i128,
    other: &Lin,
) -> Result<Lin, LinFault> {
    let Some(opposite) = y.checked_neg() else {
        return Err(LinFault::TooLarge);
    };
    let first = one.scale(alloc, x)?;
    let second = other.scale(alloc, opposite)?;
    let sum = first.add(alloc, &second)?;
    primitive(alloc, sum)
}

/// A vector freed from the first column of a row.
fn cleared(alloc: Global, vector: Lin, row: &Lin) -> Result<Lin, LinFault> {
    let Some((column, pivot)) = row.entries().first().copied() else {
        return Ok(vector);
    };
    let entry = part(column, vector.entries());
    if entry == 0 {
        return Ok(vector);
    }
    mixed(alloc, pivot, &vector, entry, row)
}

impl Space {
    pub(crate) fn empty(alloc: Global) -> Space {
        Space {
            rows: Vec::new(alloc),
        }
    }

    /// Adds a vector, and answers whether the space has grown.
    pub(crate) fn add(&mut self, alloc: Global, vector: Lin) -> Result<bool, LinFault> {
        let mut left = vector;
        for row in &self.rows {
            left = cleared(alloc, left, row)?;
        }
        if left.entries().is_empty() {
            return Ok(false);
        }
        self.rows.push(left)?;
        Ok(true)
    }
}
