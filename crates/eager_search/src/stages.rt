//! Elimination of variables from lines, in which each row that is made is rounded. Equations go first, by their smallest coefficient,
//! each solved exactly over changed variables; then each lower bound of a variable is taken with each upper bound (Schrijver, Theory of
//! Linear and Integer Programming, 1986, section 12.2).

use crate::basis::{is_exact, lead_back, note, rewrite, step_of};
use crate::cuts::{Cuts, take};
use crate::rows::{Row, coefficient, factors, freed_row, mixed_row, row_of};
use crate::stop::Stop;
use farkas_leaf::LentLine;
use std::alloc::Global;

/// No elimination has more steps: a variable's change or its elimination each.
const MOST_STEPS: u32 = 2000;

/// The rows that had a variable when it was eliminated: the equation that it was solved for alone, or its bounds.
#[derive(Drop)]
pub(crate) struct Stage {
    pub(crate) var: u32,
    pub(crate) rows: Vec<Row>,
}

/// The stages in order, and the cuts, with a clash if there is one.
#[derive(Drop)]
pub(crate) struct Eliminated {
    pub(crate) stages: Vec<Stage>,
    pub(crate) cuts: Cuts,
}

/// The place of the equation with the smallest coefficient, its variable, and the coefficient.
fn best_equation(rows: &[Row]) -> Option<(usize, u32, i128)> {
    let mut best: Option<(usize, u32, i128)> = None;
    for (place, row) in rows.iter().enumerate() {
        if row.equal {
            for entry in row.form.entries() {
                if is_smaller(entry.1, best) {
                    best = Some((place, entry.0, entry.1));
                }
            }
        }
    }
    best
}

fn is_smaller(number: i128, best: Option<(usize, u32, i128)>) -> bool {
    match best {
        Some((_, _, other)) => number.unsigned_abs() < other.unsigned_abs(),
        None => true,
    }
}

/// How many pairs of a lower and an upper bound a variable has, or none where no row has it.
fn pair_count(rows: &[Row], var: u32) -> Option<u64> {
    let mut lower: u64 = 0;
    let mut upper: u64 = 0;
    for row in rows {
        let number = coefficient(&row.form, var);
        if number > 0 {
            lower = lower.saturating_add(1);
        }
        if number < 0 {
            upper = upper.saturating_add(1);
        }
    }
    if lower == 0 && upper == 0 {
        return None;
    }
    Some(lower.saturating_mul(upper))
}

/// The variable with the fewest pairs of bounds.
fn best_variable(rows: &[Row], width: u32) -> Option<u32> {
    let mut best: Option<(u32, u64)> = None;
    for var in 0..width {
        if let Some(count) = pair_count(rows, var) {
            let fewer = match best {
                Some((_, least)) => count < least,
                None => true,
            };
            if fewer {
                best = Some((var, count));
            }
        }
    }
    match best {
        Some((var, _)) => Some(var),
        None => None,
    }
}

/// The rows freed from a variable by an equation.
fn by_equation(
    alloc: Global,
    cuts: &mut Cuts,
    rows: Vec<Row>,
    var: u32,
    equation: &Row,
) -> Result<Vec<Row>, Stop> {
    let c = coefficient(&equation.form, var);
    let mut out = Vec::with_capacity(alloc, rows.len())?;
    for row in rows {
        if coefficient(&row.form, var) == 0 {
            out.push(row)?;
        } else {
            let made = freed_row(alloc, &row, var, equation, c)?;
            take(alloc, cuts, &mut out, made)?;
        }
    }
    Ok(out)
}

/// A lower bound with each upper bound.
fn pair_with(
    alloc: Global,
    cuts: &mut Cuts,
    out: &mut Vec<Row>,
    var: u32,
    lower: &Row,
    bounds: &[Row],
) -> Result<(), Stop> {
    let a = coefficient(&lower.form, var);
    for upper in bounds {
        let c = coefficient(&upper.form, var);
        if c < 0 {
            let (x, y) = factors(a, c)?;
            let made = mixed_row(alloc, x, lower, y, upper)?;
            take(alloc, cuts, out, made)?;
        }
    }
    Ok(())
}

/// The rows with a variable and those without it.
fn parted(alloc: Global, rows: Vec<Row>, var: u32) -> Result<(Vec<Row>, Vec<Row>), Stop> {
    let mut with = Vec::new(alloc);
    let mut without = Vec::with_capacity(alloc, rows.len())?;
    for row in rows {
        if coefficient(&row.form, var) == 0 {
            without.push(row)?;
        } else {
            with.push(row)?;
        }
    }
    Ok((with, without))
}

/// The rows without a variable that no equation has.
fn by_bounds(
    alloc: Global,
    done: &mut Eliminated,
    rows: Vec<Row>,
    var: u32,
) -> Result<Vec<Row>, Stop> {
    let (bounds, mut out) = parted(alloc, rows, var)?;
    for lower in &bounds {
        if coefficient(&lower.form, var) > 0 {
            pair_with(alloc, &mut done.cuts, &mut out, var, lower, &bounds)?;
        }
    }
    done.stages.push(Stage { var, rows: bounds })?;
    Ok(out)
}

/// The rows without the variable of an equation at a place, which has the least coefficient there, or with that variable changed where
/// this doesn't divide all of the equation.
fn by_best_equation(
    alloc: Global,
    done: &mut Eliminated,
    rows: Vec<Row>,
    width: u32,
    place: usize,
    var: u32,
    least: i128,
) -> Result<Vec<Row>, Stop> {
    let mut rows = rows;
    if place >= rows.len() {
        return Err(Stop::Unfound);
    }
    if !is_exact(&rows[place].form, least) {
        let step = step_of(alloc, &rows[place].form, var, least)?;
        note(alloc, &mut done.cuts.basis, width, &step)?;
        lead_back(alloc, &mut done.cuts.origin, width, &step)?;
        for stage in done.stages.iter_mut() {
            rewrite(alloc, &mut stage.rows, &step)?;
        }
        rewrite(alloc, &mut rows, &step)?;
        return Ok(rows);
    }
    let equation = rows.remove(place);
    let out = by_equation(alloc, &mut done.cuts, rows, var, &equation)?;
    let mut solved = Vec::new(alloc);
    solved.push(equation)?;
    done.stages.push(Stage { var, rows: solved })?;
    Ok(out)
}

/// One step; none where no row has a variable.
fn eliminate_next(
    alloc: Global,
    done: &mut Eliminated,
    rows: Vec<Row>,
    width: u32,
) -> Result<Vec<Row>, Stop> {
    if let Some((place, var, least)) = best_equation(&rows) {
        return by_best_equation(alloc, done, rows, width, place, var, least);
    }
    match best_variable(&rows, width) {
        Some(var) => by_bounds(alloc, done, rows, var),
        None => Ok(rows),
    }
}

/// The rows of lines.
fn rows_of(alloc: Global, cuts: &mut Cuts, lines: &[LentLine]) -> Result<Vec<Row>, Stop> {
    let mut rows = Vec::with_capacity(alloc, lines.len())?;
    for (k, line) in lines.iter().enumerate() {
        let number = u32::try_from(k).unwrap_or(u32::MAX);
        let row = row_of(alloc, number, line)?;
        take(alloc, cuts, &mut rows, row)?;
    }
    Ok(rows)
}

/// Eliminates all variables, up to a clash.
pub(crate) fn eliminate_whole(
    alloc: Global,
    lines: &[LentLine],
    width: u32,
) -> Result<Eliminated, Stop> {
    let mut done = Eliminated {
        stages: Vec::new(alloc),
        cuts: Cuts {
            lines: lines.len(),
            cuts: Vec::new(alloc),
            basis: Vec::new(alloc),
            origin: Vec::new(alloc),
            clash: None,
        },
    };
    let mut rows = rows_of(alloc, &mut done.cuts, lines)?;
    for _ in 0..MOST_STEPS {
        if rows.is_empty() || done.cuts.clash.is_some() {
            return Ok(done);
        }
        rows = eliminate_next(alloc, &mut done, rows, width)?;
    }
    Err(Stop::Unfound)
}
