//! From the conjuncts that a part of a division uses to those that the divided problem's plan uses.

use crate::items::Item;
use crate::search::{Branch, Found};
use st_memory::Memory;
use std::alloc::Global;

/// No conjunct is used.
pub(crate) fn unused(alloc: Global, count: usize) -> Result<Vec<bool>, Memory> {
    let mut out = Vec::with_capacity(alloc, count)?;
    for _ in 0..count {
        out.push(false)?;
    }
    Ok(out)
}

/// The conjunct at a place is used.
pub(crate) fn mark(used: &mut [bool], place: usize) {
    if let Some(flag) = used.get_mut(place) {
        *flag = true;
    }
}

/// What is used of either is used.
pub(crate) fn join(used: &mut [bool], others: &[bool]) {
    for (place, other) in others.iter().enumerate() {
        if *other {
            mark(used, place);
        }
    }
}

/// What was found of a part, for the divided problem, which has so many conjuncts.
pub(crate) fn carried(
    alloc: Global,
    count: usize,
    items: &[Item],
    found: &Found,
) -> Result<Branch, Memory> {
    let mut used = unused(alloc, count)?;
    let mut needs_division = false;
    for (place, item) in items.iter().enumerate() {
        if found.used.get(place) == Some(&true) {
            mark(&mut used, item.from);
            if item.new {
                needs_division = true;
            }
        }
    }
    Ok(Branch {
        plan: found.plan,
        used,
        needs_division,
    })
}
