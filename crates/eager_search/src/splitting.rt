//! Problems that a disjunction is split into: in each, one of its parts stands in its place.

use crate::items::{Item, named, opened, push_kept, push_new};
use st_form::Form;
use st_memory::Memory;
use std::alloc::Global;

/// The conjuncts with the k-th part of the disjunction at a place, or that part's own conjuncts, in its place.
pub(crate) fn split_items<'a>(
    alloc: Global,
    items: &[Item<'a>],
    place: usize,
    k: usize,
    part: &'a Form,
) -> Result<Vec<Item<'a>>, Memory> {
    let mut out = Vec::with_capacity(alloc, items.len())?;
    let (before, rest) = items.split_at_checked(place).unwrap_or((items, &[]));
    push_kept(&mut out, before, 0)?;
    if let Some((split, behind)) = rest.split_first() {
        push_new(&mut out, opened(part), named(split.name, 5, k), place)?;
        push_kept(&mut out, behind, place.saturating_add(1))?;
    }
    Ok(out)
}
