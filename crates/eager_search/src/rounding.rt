//! Plans of problems of lines alone that rounding refutes: one cut in the other, and a leaf at the end of each.

use crate::carrying::{mark, unused};
use crate::cuts::{Cut, Cuts};
use crate::items::{Item, cut_name};
use crate::looking::line_of;
use crate::plans::Step;
use crate::search::{Found, Search};
use crate::stop::Stop;
use st_linear::Lin;
use st_memory::Memory;
use std::alloc::Global;

/// The names of lines and of the cuts behind them, and the places of the lines among the conjuncts.
#[derive(Drop)]
struct Names {
    names: Vec<u64>,
    places: Vec<usize>,
}

fn names_of(alloc: Global, items: &[Item], cuts: &[Cut]) -> Result<Names, Memory> {
    let mut out = Names {
        names: Vec::new(alloc),
        places: Vec::new(alloc),
    };
    for (place, item) in items.iter().enumerate() {
        if line_of(item.form).is_some() {
            out.names.push(item.name)?;
            out.places.push(place)?;
        }
    }
    for cut in cuts {
        out.names.push(cut_name(&cut.form, true))?;
    }
    Ok(out)
}

/// Multiples by number as picks by name.
fn named_picks(alloc: Global, names: &Names, picks: &Lin) -> Result<Vec<(u64, i64)>, Stop> {
    let mut out = Vec::with_capacity(alloc, picks.entries().len())?;
    for entry in picks.entries() {
        match (names.names.get(entry.0 as usize), i64::try_from(entry.1)) {
            (Some(name), Ok(by)) => out.push((*name, by))?,
            _ => return Err(Stop::Unfound),
        }
    }
    Ok(out)
}

/// Marks the numbers that multiples name.
fn mark_picks(needed: &mut [bool], picks: &Lin) {
    for entry in picks.entries() {
        mark(needed, entry.0 as usize);
    }
}

/// Which lines and cuts a clash needs, by number.
fn needed_by(alloc: Global, cuts: &Cuts, clash: &Lin, count: usize) -> Result<Vec<bool>, Memory> {
    let mut needed = unused(alloc, count)?;
    mark_picks(&mut needed, clash);
    for (k, cut) in cuts.cuts.iter().enumerate().rev() {
        let number = cuts.lines.saturating_add(k);
        if needed.get(number) == Some(&true) {
            mark_picks(&mut needed, &cut.picks);
        }
    }
    Ok(needed)
}

/// The plan of a cut whose first side has a plan: the second is refuted by what was rounded.
fn cut_plan(
    alloc: Global,
    search: &mut Search,
    names: &Names,
    cut: &Cut,
    first: usize,
) -> Result<usize, Stop> {
    let mut picks = named_picks(alloc, names, &cut.picks)?;
    match i64::try_from(cut.by) {
        Ok(by) => picks.push((cut_name(&cut.form, false), by))?,
        Err(_) => return Err(Stop::Unfound),
    }
    let second = search.plans.linear(picks)?;
    let number = search.plans.cut(cut.form.copy(alloc)?)?;
    let parts = vec![in alloc; first, second]?;
    Ok(search.plans.branch(Step::Cut(number), parts)?)
}

/// The plan of a problem whose lines clash once they are rounded.
pub(crate) fn rounded(
    alloc: Global,
    search: &mut Search,
    items: &[Item],
    cuts: &Cuts,
    clash: &Lin,
) -> Result<Found, Stop> {
    let names = names_of(alloc, items, &cuts.cuts)?;
    let needed = needed_by(alloc, cuts, clash, names.names.len())?;
    let mut plan = search.plans.linear(named_picks(alloc, &names, clash)?)?;
    for (k, cut) in cuts.cuts.iter().enumerate().rev() {
        let number = cuts.lines.saturating_add(k);
        if needed.get(number) == Some(&true) {
            plan = cut_plan(alloc, search, &names, cut, plan)?;
        }
    }
    let mut used = unused(alloc, items.len())?;
    for (number, place) in names.places.iter().enumerate() {
        if needed.get(number) == Some(&true) {
            mark(&mut used, *place);
        }
    }
    Ok(Found { plan, used })
}
