//! Where trees stand in a text, by number.

ghost use Rattle.std.specs.Prelude.{◌≡◌, ℕ, ◌⊎◌, ◌<◌, List, slice_index_or, None, Some, IfOk, IfSome};
ghost use Rattle.tree_writing.specs.Standing.{AreWithin};

use st_memory::Memory;
use std::alloc::Global;

/// A part of a text, from one place to before another.
#[derive(Clone, Copy)]
pub struct Place {
    pub from: usize,
    pub to: usize,
}

/// Where trees of a table were written last, by their number in the table. What was written before a block counts for nothing in
/// it, so the same memory serves all blocks of a text, and any tables.
#[derive(Drop)]
pub struct Places {
    pub kept: Vec<Option<Place>>,
}

impl Places {
    /// Nothing was written.
    pub fn new(alloc: Global) -> Places
        ensures { (text : List ℕ) → AreWithin text result.kept.items }
    {
        Places {
            kept: Vec::new(alloc),
        }
    }
}

fn entry(kept: &[Option<Place>], number: u32) -> Option<Place>
    ensures { result ≡ slice_index_or kept.now number None }
{
    match kept.get(number as usize) {
        Some(place) => *place,
        None => None,
    }
}

/// Where a tree was written behind the begin of a block.
pub(crate) fn recall(places: &Places, start: usize, number: u32) -> Option<Place>
    ensures { IfSome result (λ p. (slice_index_or places.now.kept.items number None ≡ Some p) × (start < p.from)) }
{
    match entry(places.kept.as_slice(), number) {
        Some(place) => {
            if start < place.from {
                Some(place)
            } else {
                None
            }
        }
        None => None,
    }
}

/// Remembers where a tree was written.
pub(crate) fn keep(kept: &mut Vec<Option<Place>>, number: u32, place: Place) -> Result<(), Memory>
    ensures { (n : ℕ) (p : Place) → slice_index_or kept.new.items n None ≡ Some p
        → (slice_index_or kept.old.items n None ≡ Some p) ⊎ ((n ≡ number) × (p ≡ place)) }
{
    let at = number as usize;
    if at >= kept.len() {
        kept.resize(at + 1, None)?;
    }
    kept[at] = Some(place);
    Ok(())
}
