//! Variables that are changed by whole multiples of others, so that an equation can be solved exactly: its least coefficient comes to
//! divide all others, as in Euclid's algorithm (Knuth, The Art of Computer Programming, volume 2, 1997, section 4.5.2, on linear
//! equations over whole numbers; Pugh, The Omega test, 1991). A changed variable stands for a whole form of the program's variables, so
//! rows over it are rounded as those are, and a cut's form is written in the program's variables again.

use crate::rows::Row;
use crate::stop::Stop;
use st_linear::Lin;
use st_memory::Memory;
use std::alloc::Global;

/// Whether an equation's least coefficient divides it: then it has a whole value for each of the others.
pub(crate) fn is_exact(equation: &Lin, least: i128) -> bool {
    least.unsigned_abs() == equation.divisor()
}

/// The whole number nearest to a quotient by a number above 0.
fn nearest(number: i128, by: i128) -> Option<i128> {
    let twice = number.checked_mul(2)?.checked_add(by)?;
    twice.checked_div_euclid(by.checked_mul(2)?)
}

/// How often the least coefficient goes nearest into another one, or the opposite of that.
fn times(number: i128, least: i128, plus: bool) -> Option<i128> {
    let near = nearest(number, least.checked_abs()?)?;
    if (least < 0) == plus {
        near.checked_neg()
    } else {
        Some(near)
    }
}

/// The variable with the least coefficient of an equation, plus or less the multiples of the others.
fn stepped(alloc: Global, equation: &Lin, var: u32, least: i128, plus: bool) -> Result<Lin, Stop> {
    let mut entries = Vec::with_capacity(alloc, equation.entries().len())?;
    for entry in equation.entries() {
        let by = if entry.0 == var {
            Some(1)
        } else {
            times(entry.1, least, plus)
        };
        match by {
            None => return Err(Stop::Unfound),
            Some(0) => {}
            Some(by) => entries.push((entry.0, by))?,
        }
    }
    match Lin::of_entries(alloc, 0, &entries)? {
        Some(form) => Ok(form),
        None => Err(Stop::Unfound),
    }
}

/// A change of a variable: what the new one is over those before, and what the one before is over the new ones.
#[derive(Drop)]
pub(crate) struct Step {
    var: u32,
    made: Lin,
    back: Vec<(u32, Lin)>,
}

/// The change by which the coefficients of an equation get at most half as large as its least one.
pub(crate) fn step_of(alloc: Global, equation: &Lin, var: u32, least: i128) -> Result<Step, Stop> {
    let made = stepped(alloc, equation, var, least, true)?;
    let before = stepped(alloc, equation, var, least, false)?;
    let mut back = Vec::with_capacity(alloc, 1)?;
    back.push((var, before))?;
    Ok(Step { var, made, back })
}

/// Rows over the new variables.
pub(crate) fn rewrite(alloc: Global, rows: &mut [Row], step: &Step) -> Result<(), Stop> {
    for row in rows.iter_mut() {
        row.form = row.form.replace(alloc, &step.back)?;
    }
    Ok(())
}

/// What variables stand for, before any is changed.
fn unchanged(alloc: Global, width: u32) -> Result<Vec<(u32, Lin)>, Memory> {
    let mut out = Vec::with_capacity(alloc, width as usize)?;
    for var in 0..width {
        out.push((var, Lin::variable(alloc, var)?))?;
    }
    Ok(out)
}

/// What variables stand for behind a change; before the first one nothing is kept.
pub(crate) fn note(
    alloc: Global,
    basis: &mut Vec<(u32, Lin)>,
    width: u32,
    step: &Step,
) -> Result<(), Stop> {
    if basis.is_empty() {
        *basis = unchanged(alloc, width)?;
    }
    let form = step.made.replace(alloc, basis)?;
    if let Some(pair) = basis.get_mut(step.var as usize) {
        pair.1 = form;
    }
    Ok(())
}

/// What the program's variables are over the changed ones behind a change more; before the first one nothing is kept.
pub(crate) fn lead_back(
    alloc: Global,
    origin: &mut Vec<(u32, Lin)>,
    width: u32,
    step: &Step,
) -> Result<(), Stop> {
    if origin.is_empty() {
        *origin = unchanged(alloc, width)?;
    }
    for pair in origin.iter_mut() {
        pair.1 = pair.1.replace(alloc, &step.back)?;
    }
    Ok(())
}
