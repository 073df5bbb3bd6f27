//! Cuts in the manner of Chvátal. Where the coefficients of a made row g·h + c >= 0 have a common divisor g, whole values make
//! h + floor(c/g) >= 0 too (Schrijver, Theory of Linear and Integer Programming, 1986, chapter 23). In a certificate this is a cut of
//! which one side goes on, and the other is refuted by the row's multiples and g times the denied row.

use crate::rows::{Row, signed};
use crate::stop::Stop;
use st_linear::Lin;
use std::alloc::Global;

/// No more rows are kept at once, and no more cuts made.
const MOST: usize = 300;

/// A rounded form over the program's variables, the multiples of what was rounded, and the divisor.
#[derive(Drop)]
pub(crate) struct Cut {
    pub(crate) form: Lin,
    pub(crate) picks: Lin,
    pub(crate) by: i128,
}

/// The lines of a problem are numbered, and the cuts behind them. The basis says what changed variables stand for, and the origin what the
/// program's variables are over these. A clash has multiples whose sum is a negative constant.
#[derive(Drop)]
pub(crate) struct Cuts {
    pub(crate) lines: usize,
    pub(crate) cuts: Vec<Cut>,
    pub(crate) basis: Vec<(u32, Lin)>,
    pub(crate) origin: Vec<(u32, Lin)>,
    pub(crate) clash: Option<Lin>,
}

/// A cut's row as a row of its own.
fn cut_row(alloc: Global, cuts: &Cuts, form: Lin) -> Result<Row, Stop> {
    let number = cuts.lines.saturating_add(cuts.cuts.len());
    match u32::try_from(number) {
        Ok(number) => Ok(Row {
            equal: false,
            form,
            picks: Lin::variable(alloc, number)?,
        }),
        Err(_) => Err(Stop::Unfound),
    }
}

/// The constant g·floor(c/g) - c is below 0 where g doesn't divide c: no whole values make the equation hold.
fn clash_of(alloc: Global, row: &Row, cut: &Row, by: i128) -> Result<Lin, Stop> {
    let once = row.picks.negated(alloc)?;
    Ok(cut.picks.scale(alloc, by)?.add(alloc, &once)?)
}

/// Rounds a row whose constant its divisor doesn't divide. An equation is a clash then.
fn round(alloc: Global, cuts: &mut Cuts, row: Row) -> Result<Row, Stop> {
    if cuts.cuts.len() >= MOST {
        return Err(Stop::Unfound);
    }
    let divisor = row.form.divisor();
    let by = signed(divisor)?;
    let form = row.form.divided(alloc, divisor)?;
    let cut = cut_row(alloc, cuts, form.copy(alloc)?)?;
    if row.equal {
        cuts.clash = Some(clash_of(alloc, &row, &cut, by)?);
    }
    let form = form.replace(alloc, &cuts.basis)?;
    cuts.cuts.push(Cut {
        form,
        picks: row.picks,
        by,
    })?;
    Ok(cut)
}

/// Takes a row that has no variable: it holds, or it is a clash.
fn take_constant(alloc: Global, cuts: &mut Cuts, row: &Row) -> Result<(), Stop> {
    let constant = row.form.constant();
    if constant < 0 {
        cuts.clash = Some(row.picks.copy(alloc)?);
    }
    if constant > 0 && row.equal {
        cuts.clash = Some(row.picks.negated(alloc)?);
    }
    Ok(())
}

/// Whether rounding changes a row.
fn is_rounded(form: &Lin) -> bool {
    let divisor = form.divisor();
    divisor > 1 && form.constant().unsigned_abs().checked_rem(divisor) != Some(0)
}

/// Puts a made row behind others, rounded, unless it is a constant.
pub(crate) fn take(
    alloc: Global,
    cuts: &mut Cuts,
    rows: &mut Vec<Row>,
    row: Row,
) -> Result<(), Stop> {
    if row.form.entries().is_empty() {
        return take_constant(alloc, cuts, &row);
    }
    if rows.len() >= MOST {
        return Err(Stop::Unfound);
    }
    if !is_rounded(&row.form) {
        rows.push(row)?;
        return Ok(());
    }
    let cut = round(alloc, cuts, row)?;
    rows.push(cut)?;
    Ok(())
}
