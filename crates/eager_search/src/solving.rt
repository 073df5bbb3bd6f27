//! What is done at a problem of lines alone: it is refuted by rounding, or cut where elimination comes to a fraction.

use crate::looking::lines_of;
use crate::points::{Reached, led_back, whole_values};
use crate::rounding::rounded;
use crate::search::{Found, Node, Search};
use crate::stages::eliminate_whole;
use crate::stop::Stop;
use st_linear::Lin;
use std::alloc::Global;

/// The plan of the problem; the form of a cut; or whole values with which its lines hold.
#[derive(Drop)]
pub(crate) enum Solved {
    Closes(Found),
    Cuts(Lin),
    Holds(Vec<i128>),
}

/// The form that is at least 0 where a variable has this value or a greater one.
fn from_value(alloc: Global, var: u32, value: i128) -> Result<Lin, Stop> {
    let Some(constant) = value.checked_neg() else {
        return Err(Stop::Unfound);
    };
    match Lin::of_entries(alloc, constant, &[(var, 1)])? {
        Some(form) => Ok(form),
        None => Err(Stop::Unfound),
    }
}

/// Solves the lines of a problem over whole numbers, as far as one elimination goes.
pub(crate) fn solve(alloc: Global, search: &mut Search, node: Node) -> Result<Solved, Stop> {
    let lines = lines_of(alloc, node.items)?;
    let done = eliminate_whole(alloc, &lines, search.width())?;
    if let Some(clash) = &done.cuts.clash {
        let found = rounded(alloc, search, node.items, &done.cuts, clash)?;
        return Ok(Solved::Closes(found));
    }
    match whole_values(alloc, &done.stages, search.width())? {
        Reached::Gap(var, above) => {
            if node.cuts == 0 {
                return Err(Stop::Unfound);
            }
            let form = from_value(alloc, var, above)?;
            Ok(Solved::Cuts(form.replace(alloc, &done.cuts.basis)?))
        }
        Reached::Whole(values) => Ok(Solved::Holds(led_back(alloc, &done.cuts.origin, values)?)),
    }
}
