//! A whole point of lines, or the first coordinate at which no whole value is left, where elimination finds no clash: variables get whole
//! values, the last eliminated one first, within the bounds that those before leave.

use crate::rows::{Row, coefficient};
use crate::stages::Stage;
use crate::stop::Stop;
use st_linear::Lin;
use std::alloc::Global;

/// What elimination without a clash leads to.
#[derive(Drop)]
pub(crate) enum Reached {
    /// A variable that has no whole value between two numbers that follow each other, and the larger of these.
    Gap(u32, i128),
    /// A whole value of each variable.
    Whole(Vec<i128>),
}

/// What a form is worth, without a variable where one is named.
fn worth(form: &Lin, without: Option<u32>, values: &[i128]) -> Option<i128> {
    let mut sum = form.constant();
    for entry in form.entries() {
        if without != Some(entry.0) {
            let value = values.get(entry.0 as usize).copied()?;
            let product = entry.1.checked_mul(value)?;
            sum = sum.checked_add(product)?;
        }
    }
    Some(sum)
}

/// The least number that is at least a quotient.
fn ceiling(number: i128, by: i128) -> Option<i128> {
    let below = number.checked_neg()?.checked_div_euclid(by)?;
    below.checked_neg()
}

/// The greatest of bounds from below.
fn raised(low: Option<i128>, bound: i128) -> Option<i128> {
    match low {
        Some(other) if other > bound => low,
        _ => Some(bound),
    }
}

/// The least of bounds from above.
fn lowered(high: Option<i128>, bound: i128) -> Option<i128> {
    match high {
        Some(other) if other < bound => high,
        _ => Some(bound),
    }
}

/// The bounds of a variable that are left by the values of others.
#[derive(Clone, Copy)]
struct Bounds {
    low: Option<i128>,
    high: Option<i128>,
}

/// The bounds with those of a row more: a·x + rest is at least 0, or 0.
fn bounded(bounds: Bounds, equal: bool, a: i128, rest: i128) -> Option<Bounds> {
    let mut next = bounds;
    let back = rest.checked_neg()?;
    if a > 0 {
        next.low = raised(bounds.low, ceiling(back, a)?);
        if equal {
            next.high = lowered(bounds.high, back.checked_div_euclid(a)?);
        }
    } else {
        let size = a.checked_neg()?;
        next.high = lowered(bounds.high, rest.checked_div_euclid(size)?);
        if equal {
            next.low = raised(bounds.low, ceiling(rest, size)?);
        }
    }
    Some(next)
}

fn bounds_of(stage: &Stage, values: &[i128]) -> Option<Bounds> {
    let mut bounds = Bounds {
        low: None,
        high: None,
    };
    for row in &stage.rows {
        let rest = worth(&row.form, Some(stage.var), values)?;
        let a = coefficient(&row.form, stage.var);
        bounds = bounded(bounds, row.equal, a, rest)?;
    }
    Some(bounds)
}

/// The whole value within bounds that is taken, or the least one above a gap.
fn value_in(bounds: Bounds) -> Result<i128, i128> {
    match (bounds.low, bounds.high) {
        (Some(low), Some(high)) => { if low <= high { Ok(low) } else { Err(low) } }
        (Some(low), None) => Ok(low),
        (None, Some(high)) => Ok(high),
        (None, None) => Ok(0),
    }
}

/// The whole values that variables get, or where there is none.
pub(crate) fn whole_values(alloc: Global, stages: &[Stage], width: u32) -> Result<Reached, Stop> {
    let mut values = Vec::new(alloc);
    for _ in 0..width {
        values.push(0)?;
    }
    for stage in stages.iter().rev() {
        let Some(bounds) = bounds_of(stage, &values) else {
            return Err(Stop::Unfound);
        };
        match value_in(bounds) {
            Ok(value) => set(&mut values, stage.var, value),
            Err(above) => return Ok(Reached::Gap(stage.var, above)),
        }
    }
    Ok(Reached::Whole(values))
}

/// The values of the program's variables, by what these are over the changed ones, if any is changed.
pub(crate) fn led_back(
    alloc: Global,
    origin: &[(u32, Lin)],
    values: Vec<i128>,
) -> Result<Vec<i128>, Stop> {
    if origin.is_empty() {
        return Ok(values);
    }
    let mut out = Vec::with_capacity(alloc, origin.len())?;
    for pair in origin {
        match worth(&pair.1, None, &values) {
            Some(value) => out.push(value)?,
            None => return Err(Stop::Unfound),
        }
    }
    Ok(out)
}

fn set(values: &mut [i128], var: u32, value: i128) {
    if let Some(place) = values.get_mut(var as usize) {
        *place = value;
    }
}
