//! Lines that are made of a problem's lines.

use crate::stop::Stop;
use farkas_leaf::LentLine;
use st_linear::{Lin, gcd};
use std::alloc::Global;

/// A line that was made, and how often it takes each line of the problem and each cut, by their numbers, as the coefficients of a form.
#[derive(Drop)]
pub(crate) struct Row {
    pub(crate) equal: bool,
    pub(crate) form: Lin,
    pub(crate) picks: Lin,
}

/// The line with a number.
pub(crate) fn row_of(alloc: Global, number: u32, line: &LentLine) -> Result<Row, Stop> {
    Ok(Row {
        equal: line.equal,
        form: line.form.copy(alloc)?,
        picks: Lin::variable(alloc, number)?,
    })
}

/// The coefficient of a variable.
pub(crate) fn coefficient(form: &Lin, var: u32) -> i128 {
    for entry in form.entries() {
        if entry.0 == var {
            return entry.1;
        }
    }
    0
}

/// x times one form and y times another.
fn mixed_form(alloc: Global, x: i128, first: &Lin, y: i128, second: &Lin) -> Result<Lin, Stop> {
    let one = first.scale(alloc, x)?;
    let other = second.scale(alloc, y)?;
    Ok(one.add(alloc, &other)?)
}

/// x times one row and y times another.
pub(crate) fn mixed_row(
    alloc: Global,
    x: i128,
    first: &Row,
    y: i128,
    second: &Row,
) -> Result<Row, Stop> {
    Ok(Row {
        equal: first.equal && second.equal,
        form: mixed_form(alloc, x, &first.form, y, &second.form)?,
        picks: mixed_form(alloc, x, &first.picks, y, &second.picks)?,
    })
}

/// A natural number as one with a sign.
pub(crate) fn signed(number: u128) -> Result<i128, Stop> {
    match i128::try_from(number) {
        Ok(value) => Ok(value),
        Err(_) => Err(Stop::Unfound),
    }
}

/// The least factors above 0 that make two coefficients equal in size.
pub(crate) fn factors(a: i128, c: i128) -> Result<(i128, i128), Stop> {
    let shared = gcd(a.unsigned_abs(), c.unsigned_abs());
    match (
        c.unsigned_abs().checked_div(shared),
        a.unsigned_abs().checked_div(shared),
    ) {
        (Some(x), Some(y)) => Ok((signed(x)?, signed(y)?)),
        _ => Err(Stop::Unfound),
    }
}

/// The row without the variable, by an equation in which it has the coefficient c; c isn't 0.
pub(crate) fn freed_row(
    alloc: Global,
    row: &Row,
    var: u32,
    equation: &Row,
    c: i128,
) -> Result<Row, Stop> {
    let a = coefficient(&row.form, var);
    let (x, y) = factors(a, c)?;
    let back = if (a < 0) == (c < 0) {
        y.checked_neg()
    } else {
        Some(y)
    };
    match back {
        Some(back) => mixed_row(alloc, x, row, back, equation),
        None => Err(Stop::Unfound),
    }
}
