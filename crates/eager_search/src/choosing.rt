//! What is done at a problem that its lines don't close. A conjunct that is a literal, and no denied location, is decided, since all but
//! one of the parts close at once; else the disjunction is split of which the fewest parts agree with the lines and the denied locations;
//! else the first location or boolean variable is decided. Few parts first is the rule of the most constrained choice (Haralick and
//! Elliott, Increasing tree search efficiency for constraint satisfaction problems, 1980).

use crate::items::Item;
use crate::literals::{Literal, first_literal, whole_literal};
use crate::looking::{agrees, asks_denied, denied_by, has_line, lines_of};
use farkas_check::splits::disjuncts;
use farkas_leaf::LentLine;
use st_form::Form;
use st_memory::Memory;
use std::alloc::Global;

/// What is done at a problem.
#[derive(Clone, Copy)]
pub(crate) enum Move {
    Decide(Literal),
    /// The disjunction at this place is split.
    Split(usize),
    /// There are lines alone.
    Solve,
}

/// The first conjunct that is a literal.
fn first_whole(items: &[Item]) -> Option<Literal> {
    for item in items {
        if let Some(literal) = whole_literal(item.form) {
            return Some(literal);
        }
    }
    None
}

/// The first location or boolean variable.
fn first_among(items: &[Item]) -> Option<Literal> {
    for item in items {
        if let Some(literal) = first_literal(item.form) {
            return Some(literal);
        }
    }
    None
}

/// How many parts without a line ask for no location that is denied.
fn count_without_lines(denied: &[u32], parts: &[Form]) -> usize {
    let mut count: usize = 0;
    for part in parts {
        if !has_line(part) && !asks_denied(denied, part) {
            count = count.saturating_add(1);
        }
    }
    count
}

/// How many parts agree with the first so many lines and with denied locations; no more are counted than would matter.
fn count_agreeing<'a>(
    alloc: Global,
    width: u32,
    lines: &mut Vec<LentLine<'a>>,
    count: usize,
    denied: &[u32],
    parts: &'a [Form],
    most: usize,
) -> Result<usize, Memory> {
    let mut agreeing = count_without_lines(denied, parts);
    for part in parts {
        if agreeing >= most {
            return Ok(agreeing);
        }
        if has_line(part)
            && !asks_denied(denied, part)
            && agrees(alloc, width, lines, count, part)?
        {
            agreeing = agreeing.saturating_add(1);
        }
    }
    Ok(agreeing)
}

/// The place of the disjunction of which the fewest parts agree with the lines, and how many do.
fn fewest(alloc: Global, width: u32, items: &[Item]) -> Result<Option<(usize, usize)>, Memory> {
    let mut lines = lines_of(alloc, items)?;
    let count = lines.len();
    let denied = denied_by(alloc, items)?;
    let mut best: Option<(usize, usize)> = None;
    for (place, item) in items.iter().enumerate() {
        if let Some(parts) = disjuncts(item.form) {
            let most = match best {
                Some((_, least)) => least,
                None => usize::MAX,
            };
            let agreeing = count_agreeing(alloc, width, &mut lines, count, &denied, parts, most)?;
            if agreeing < most {
                best = Some((place, agreeing));
            }
            if agreeing <= 1 {
                return Ok(best);
            }
        }
    }
    Ok(best)
}

/// What is done at a problem with these conjuncts.
pub(crate) fn choose(alloc: Global, width: u32, items: &[Item]) -> Result<Move, Memory> {
    if let Some(literal) = first_whole(items) {
        return Ok(Move::Decide(literal));
    }
    let best = fewest(alloc, width, items)?;
    if let Some((place, _)) = best {
        return Ok(Move::Split(place));
    }
    match first_among(items) {
        Some(literal) => Ok(Move::Decide(literal)),
        None => Ok(Move::Solve),
    }
}
