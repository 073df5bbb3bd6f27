//! The levels of a node: its groups from the outermost on, each with a base and a top. A depth is how many groups stand outside.

ghost use Rattle.std.specs.Prelude.{◌≡◌, ◌++◌, ◌∷◌, [], OnOk, map};
ghost use Rattle.temporal_goals.specs.Plain.{plain_level};
ghost use Rattle.rule_laws.specs.NestedNet.{top_at as top_at_of, base_at as base_at_of, group_at as group_at_of, agree as agree_of, pairs_below};
ghost use Rattle.nested_net.specs.Walk.{outside as outside_of};

use st_linear::Lin;
use st_memory::Memory;
use std::alloc::Global;
use temporal_goals::Level;

/// The top at a depth; behind the last level the delay.
pub(crate) fn top_at<'a>(depth: usize, levels: &'a [Level], delay: &'a Lin) -> &'a Lin
    ensures { result.now ≡ top_at_of depth (map plain_level levels.now) delay.now }
{
    match levels.get(depth) {
        Some(level) => &level.top,
        None => delay,
    }
}

/// The base at a depth; behind the last level the delay.
pub(crate) fn base_at<'a>(depth: usize, levels: &'a [Level], delay: &'a Lin) -> &'a Lin
    ensures { result.now ≡ base_at_of depth (map plain_level levels.now) delay.now }
{
    match levels.get(depth) {
        Some(level) => &level.base,
        None => delay,
    }
}

/// The group at a depth.
pub(crate) fn group_at(depth: usize, levels: &[Level]) -> Option<u32>
    ensures { result ≡ group_at_of depth (map plain_level levels.now) }
{
    match levels.get(depth) {
        Some(level) => Some(level.group),
        None => None,
    }
}

/// Whether both have at least so many groups, and the first so many are the same.
pub(crate) fn agree(depth: usize, levels: &[Level], other: &[Level]) -> bool
    ensures { result ≡ agree_of depth (map plain_level levels.now) (map plain_level other.now) }
{
    if levels.len() < depth {
        return false;
    }
    if other.len() < depth {
        return false;
    }
    for index in 0..depth {
        if other[index].group != levels[index].group {
            return false;
        }
    }
    true
}

/// How many groups stand outside the one that is this transition; all, where none is.
pub(crate) fn outside(number: u32, levels: &[Level]) -> usize
    ensures { result ≡ outside_of number (map plain_level levels.now) }
{
    for (depth, level) in levels.iter().enumerate() {
        if level.group == number {
            return depth;
        }
    }
    levels.len()
}

/// Neither the base nor the top of a level is raised.
fn push_pair(
    alloc: Global,
    level: &Level,
    next: &Level,
    falls: &mut Vec<(Lin, Lin)>,
) -> Result<(), Memory>
    ensures { OnOk result (falls.new.items ≡ falls.old.items ++ (next.now.base, level.now.base) ∷ (next.now.top, level.now.top) ∷ []) }
{
    let base = (next.base.copy(alloc)?, level.base.copy(alloc)?);
    falls.push(base)?;
    let top = (next.top.copy(alloc)?, level.top.copy(alloc)?);
    falls.push(top)?;
    Ok(())
}

/// No base and no top of the first so many levels is raised.
pub(crate) fn push_pairs(
    alloc: Global,
    depth: usize,
    levels: &[Level],
    other: &[Level],
    falls: &mut Vec<(Lin, Lin)>,
) -> Result<(), Memory>
    ensures { OnOk result (falls.new.items ≡ falls.old.items ++ pairs_below depth (map plain_level levels.now) (map plain_level other.now)) }
{
    let both = depth.min(levels.len()).min(other.len());
    for index in 0..both {
        push_pair(alloc, &levels[index], &other[index], falls)?;
    }
    Ok(())
}
