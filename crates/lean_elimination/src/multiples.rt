//! The multiples of input lines that a row is the sum of.

ghost use Rattle.std.specs.Prelude.{◌≡◌, IfOk};
ghost use Rattle.lean_elimination.specs.Arenas.{tracks, row_at};

use crate::arena::Arena;
use crate::merging::mix_entries;
use crate::row::{Entries, Origin};
use crate::stop::Refusal;
use smallvec::SmallVec;
use std::alloc::Global;

const PICK_LIMIT: u64 = 1 << 40;

/// The multiples of a row, from those of the two that it was made of. A row's bound is at least the sum of those of the two, so this
/// takes no more steps than the bound.
pub(crate) fn multiples(alloc: Global, arena: &Arena, k: usize) -> Result<Entries, Refusal>
    ensures { IfOk result (λ v. v.items ≡ (row_at (tracks arena.now.rows.items) k).picks) }
{
    if k >= arena.rows.len() {
        return Err(Refusal::Unfit);
    }
    match arena.rows[k].origin {
        Origin::Input(number) => {
            let mut picks = SmallVec::new(alloc);
            picks.push((number, 1))?;
            Ok(picks)
        }
        Origin::Sum(parts) => {
            if parts.first >= k || parts.second >= k {
                return Err(Refusal::Unfit);
            }
            let first = multiples(alloc, arena, parts.first)?;
            let second = multiples(alloc, arena, parts.second)?;
            mix_entries(
                alloc,
                PICK_LIMIT,
                &parts.x,
                first.as_slice(),
                &parts.y,
                second.as_slice(),
            )
        }
    }
}
