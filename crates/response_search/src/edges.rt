//! Where steps lead from item to item, and the longest ways.

use crate::chain::ChainItem;
use crate::items::{Denied, denial, is_never};
use control_cubes::CubeFault;
use invariant_search::{ALWAYS, Allowed, Search};
use st_form::SharedForm;
use st_memory::Memory;
use std::alloc::Global;

/// A step from an item to another, or to itself: the numbers of the items and of the mode.
#[derive(Clone, Copy, PartialEq, Eq)]
pub(crate) struct Edge {
    pub(crate) from: usize,
    pub(crate) step: usize,
    pub(crate) to: usize,
    /// The step may leave the item that it begins at as it is.
    pub(crate) stay: bool,
}

/// That the mode with a number leads from an item to where the goal doesn't hold.
pub(crate) fn move_question(
    alloc: Global,
    search: &Search<'_>,
    goal: &Denied,
    item: &ChainItem,
    step: usize,
) -> Result<Vec<SharedForm>, Memory> {
    let mut forms = Vec::new(alloc);
    if let Some(mode) = search.steps().get(step) {
        forms.push(mode.enabled.share()?)?;
    }
    forms.push(item.trial.form.share()?)?;
    goal.push_behind(step, &mut forms)?;
    Ok(forms)
}

/// Whether formulas may be true together, as far as lemmas say.
pub(crate) fn may_be(
    alloc: Global,
    search: &mut Search<'_>,
    forms: Vec<SharedForm>,
) -> Result<bool, CubeFault> {
    let mut used = Vec::new(alloc);
    Ok(!is_never(alloc, search, forms, Allowed::From(ALWAYS), &mut used)?)
}

/// Whether the mode with a number leads from one item to another.
fn may_lead(
    alloc: Global,
    search: &mut Search<'_>,
    goal: &Denied,
    item: &ChainItem,
    other: &ChainItem,
    step: usize,
) -> Result<bool, CubeFault> {
    let mut forms = move_question(alloc, search, goal, item, step)?;
    if let Some(denied) = other.trial.denied.behind(step) {
        forms.push(denial(alloc, denied.get().copy(alloc)?)?)?;
    }
    may_be(alloc, search, forms)
}

/// Whether the mode with a number may leave an item as it is.
fn may_stay(search: &Search<'_>, item: &ChainItem, step: usize) -> bool {
    match search.steps().get(step) {
        Some(mode) => item.trial.may_stay(mode.transition),
        None => false,
    }
}

/// Appends the edges of the mode with a number from the item with a number.
fn push_edges_by(
    alloc: Global,
    search: &mut Search<'_>,
    goal: &Denied,
    items: &[ChainItem],
    from: usize,
    step: usize,
    out: &mut Vec<Edge>,
) -> Result<(), CubeFault> {
    let Some(item) = items.get(from) else {
        return Ok(());
    };
    let question = move_question(alloc, search, goal, item, step)?;
    if !may_be(alloc, search, question)? {
        return Ok(());
    }
    let stays = may_stay(search, item, step);
    for (to, other) in items.iter().enumerate() {
        if may_lead(alloc, search, goal, item, other, step)? {
            let stay = stays && to == from;
            out.push(Edge {
                from,
                step,
                to,
                stay,
            })?;
        }
    }
    Ok(())
}

/// All edges between items.
pub(crate) fn edges(
    alloc: Global,
    search: &mut Search<'_>,
    goal: &Denied,
    items: &[ChainItem],
) -> Result<Vec<Edge>, CubeFault> {
    let mut out = Vec::new(alloc);
    for from in 0..items.len() {
        for step in 0..search.steps().len() {
            push_edges_by(alloc, search, goal, items, from, step, &mut out)?;
        }
    }
    Ok(out)
}

/// Marks what edges lead to from what is marked, once over all edges. Whether a mark was added.
fn spread(edges: &[Edge], marks: &mut [bool]) -> bool {
    let mut changed = false;
    for edge in edges {
        if marks.get(edge.from) == Some(&true)
            && let Some(mark) = marks.get_mut(edge.to)
            && !*mark
        {
            *mark = true;
            changed = true;
        }
    }
    changed
}

/// Marks all items to which edges lead from those that are marked.
pub(crate) fn mark_reached(edges: &[Edge], marks: &mut [bool]) {
    for _ in 0..marks.len() {
        if !spread(edges, marks) {
            break;
        }
    }
}

/// Makes the depth of each item more than those to which its edges lead, once over all edges. Whether one was changed.
fn deepen(edges: &[Edge], depths: &mut [usize]) -> bool {
    let mut changed = false;
    for edge in edges {
        let least = match depths.get(edge.to) {
            Some(depth) => depth.saturating_add(1),
            None => 0,
        };
        if let Some(depth) = depths.get_mut(edge.from)
            && *depth < least
        {
            *depth = least;
            changed = true;
        }
    }
    changed
}

/// How many edges the longest way from each item has; nothing where edges go round.
pub(crate) fn depths(
    alloc: Global,
    edges: &[Edge],
    count: usize,
) -> Result<Option<Vec<usize>>, Memory> {
    let mut out = vec![in alloc; 0usize; count]?;
    for _ in 0..=count {
        if !deepen(edges, &mut out) {
            return Ok(Some(out));
        }
    }
    Ok(None)
}
