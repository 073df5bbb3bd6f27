//! The look at the lines of a problem. Where they have no solution, the problem closes, whatever else its conjuncts say.

use crate::carrying::{mark, unused};
use crate::items::{Item, opened};
use crate::literals::denied_location;
use crate::search::{Found, Search};
use farkas_leaf::LentLine;
use lean_elimination::refute;
use st_form::Form;
use st_memory::Memory;
use std::alloc::Global;

/// The line that a formula is, if it is one, lent.
pub(crate) fn line_of(form: &Form) -> Option<LentLine<'_>> {
    match form {
        Form::Row(row) => Some(LentLine {
            form: row,
            equal: false,
        }),
        Form::Equal(row) => Some(LentLine {
            form: row,
            equal: true,
        }),
        _ => None,
    }
}

/// The lines of conjuncts, lent.
pub(crate) fn lines_of<'a>(alloc: Global, items: &[Item<'a>]) -> Result<Vec<LentLine<'a>>, Memory> {
    let mut out = Vec::with_capacity(alloc, items.len())?;
    for item in items {
        if let Some(line) = line_of(item.form) {
            out.push(line)?;
        }
    }
    Ok(out)
}

/// The locations that conjuncts deny.
pub(crate) fn denied_by(alloc: Global, items: &[Item]) -> Result<Vec<u32>, Memory> {
    let mut out = Vec::new(alloc);
    for item in items {
        if let Some(location) = denied_location(item.form) {
            out.push(location)?;
        }
    }
    Ok(out)
}

/// Whether a part of a disjunction asks for a location that is denied.
pub(crate) fn asks_denied(denied: &[u32], part: &Form) -> bool {
    for form in opened(part) {
        if let Form::At(location) = form
            && denied.contains(location)
        {
            return true;
        }
    }
    false
}

/// Whether a line stands among the conjuncts of a part of a disjunction.
pub(crate) fn has_line(part: &Form) -> bool {
    for form in opened(part) {
        if line_of(form).is_some() {
            return true;
        }
    }
    false
}

/// Whether a part of a disjunction agrees with the first so many lines, as far as the look tells.
pub(crate) fn agrees<'a>(
    alloc: Global,
    width: u32,
    lines: &mut Vec<LentLine<'a>>,
    count: usize,
    part: &'a Form,
) -> Result<bool, Memory> {
    lines.truncate(count);
    for form in opened(part) {
        if let Some(line) = line_of(form) {
            lines.push(line)?;
        }
    }
    if lines.len() == count {
        return Ok(true);
    }
    let refuted = refute(alloc, lines, width)?;
    Ok(refuted.is_none())
}

/// Picks of lines by number, which rise, as picks of lines by name, and the conjuncts that these are.
pub(crate) fn by_name(
    alloc: Global,
    items: &[Item],
    picks: &[(u32, i64)],
) -> Result<(Vec<(u64, i64)>, Vec<bool>), Memory> {
    let mut named = Vec::with_capacity(alloc, picks.len())?;
    let mut used = unused(alloc, items.len())?;
    let mut left = picks.iter();
    let mut next = left.next();
    let mut line: u32 = 0;
    for (place, item) in items.iter().enumerate() {
        if line_of(item.form).is_some() {
            if let Some(pick) = next
                && pick.0 == line
            {
                named.push((item.name, pick.1))?;
                mark(&mut used, place);
                next = left.next();
            }
            line = line.saturating_add(1);
        }
    }
    Ok((named, used))
}

/// The leaf of a problem whose lines have no solution.
pub(crate) fn look(
    alloc: Global,
    search: &mut Search,
    items: &[Item],
) -> Result<Option<Found>, Memory> {
    let lines = lines_of(alloc, items)?;
    let Some(picks) = refute(alloc, &lines, search.width())? else {
        return Ok(None);
    };
    let (named, used) = by_name(alloc, items, &picks)?;
    let plan = search.plans.linear(named)?;
    Ok(Some(Found { plan, used }))
}
