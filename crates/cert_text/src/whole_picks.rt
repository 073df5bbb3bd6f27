//! A pick is read whole, with the sign behind it: what that leads to is what its tokens lead to, one by one.

ghost use Rattle.std.specs.Prelude.{◌≡◌, ℕ, ◌+◌, ◌<◌, ◌≤◌, ◌^◌, IfOk, length, drop, IsTrue};
ghost use Rattle.cert_text.specs.PickFronts.{IsPick};
ghost use Rattle.cert_text.specs.Reading.{progress_view, after, is_going};

use crate::numbers::{go_behind, go_on};
use crate::pick_fronts::Pick;
use crate::progress::{Pending, Progress};
use crate::scan::Want;
use crate::tree::{add_pick, add_picks};
use st_memory::Memory;
use std::alloc::Global;

/// Reads the pick in front and the sign behind it, where a row may stand, and answers how many bytes that is.
pub fn read_pick(
    progress: &mut Progress,
    alloc: Global,
    bytes: &[u8],
    signed: bool,
    count: u32,
    pick: Pick,
) -> Result<usize, Memory>
    requires going { IsTrue (is_going (progress_view progress.old)) }
    requires idle { progress.old.pending ≡ Pending.Idle }
    requires row { progress.old.scan.want ≡ Want.Row signed count }
    requires few { count < 4096 }
    requires pick { IsPick signed pick bytes.now }
    ensures some { IfOk result (λ n. 0 < n) }
    ensures within { IfOk result (λ n. n ≤ length bytes.now) }
    ensures leads { IfOk result (λ n. (at : ℕ) → after (at + n) (progress_view progress.new) (drop n bytes.now)
        ≡ after at (progress_view progress.old) bytes.now) }
{
    add_pick(
        &mut progress.building,
        signed,
        pick.row,
        pick.negative,
        pick.size,
    )?;
    let count = count + 1;
    match bytes[pick.end] {
        b',' => {
            go_on(progress, Want::Row { signed, count });
            Ok(pick.end + 1)
        }
        b']' => {
            add_picks(alloc, &mut progress.building, signed)?;
            go_behind(progress);
            Ok(pick.end + 1)
        }
        _ => {
            go_on(progress, Want::MorePicks { signed, count });
            Ok(pick.end)
        }
    }
}
