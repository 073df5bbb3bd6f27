//! Numbers that end. Those that certificates are full of change the scan in place, which is cheaper than to copy it to `give`
//! and back: what each does is what `take_token` does, which takes all others.

ghost use Rattle.std.specs.Prelude.{◌≡◌, ◌+◌, ◌<◌, ◌≤◌, ◌^◌, OnOk};
ghost use Rattle.cert_text.specs.Control.{give};
ghost use Rattle.cert_text.specs.Run.{want_behind};
ghost use Rattle.cert_text.specs.Tree.{built_view};
ghost use Rattle.cert_text.specs.Reading.{progress_view, token_taken, going, idle};

use crate::progress::{Pending, Progress, Stage, take_token};
use crate::scan::{MAX_NUMBER, MAX_PICKS, MULTIPLIER_END, Token, Want};
use crate::tree::add_pick;
use st_memory::Memory;
use std::alloc::Global;

/// The block goes on, and this may stand next.
pub fn go_on(progress: &mut Progress, want: Want)
    ensures { progress_view progress.new
        ≡ going (record progress.old.scan { want = want }) (built_view progress.old.building) idle }
{
    progress.scan.want = want;
    progress.pending = Pending::Idle;
    progress.stage = Stage::Going;
}

/// The block goes on behind a whole tree.
pub fn go_behind(progress: &mut Progress)
    ensures { progress_view progress.new
        ≡ going (record progress.old.scan { want = want_behind progress.old.scan.depth }) (built_view progress.old.building) idle }
{
    if progress.scan.depth == 0 {
        go_on(progress, Want::End);
    } else {
        go_on(progress, Want::Tree { end: true });
    }
}

/// A number ends.
pub fn take_number(
    progress: &mut Progress,
    alloc: Global,
    start: u64,
    end: u64,
    n: u64,
) -> Result<(), Memory>
    ensures { OnOk result (progress_view progress.new
        ≡ token_taken start end (give progress.old.scan (Token.Number n)) (built_view progress.old.building)) }
{
    match progress.scan.want {
        Want::Multiplier { signed, count, row } => {
            if n >= MULTIPLIER_END {
                progress.stage = Stage::Over(start);
            } else {
                add_pick(&mut progress.building, signed, row, false, n)?;
                go_on(progress, Want::MorePicks { signed, count });
            }
            Ok(())
        }
        Want::Negative { count, row } => {
            if n >= MULTIPLIER_END {
                progress.stage = Stage::Over(start);
            } else {
                add_pick(&mut progress.building, true, row, true, n)?;
                let signed = true;
                go_on(progress, Want::MorePicks { signed, count });
            }
            Ok(())
        }
        _ => take_name(progress, alloc, start, end, n),
    }
}

/// A number ends that is no multiplier.
fn take_name(
    progress: &mut Progress,
    alloc: Global,
    start: u64,
    end: u64,
    n: u64,
) -> Result<(), Memory>
    ensures { OnOk result (progress_view progress.new
        ≡ token_taken start end (give progress.old.scan (Token.Number n)) (built_view progress.old.building)) }
{
    match progress.scan.want {
        Want::Row { signed, count } => {
            if n == 0 {
                progress.stage = Stage::Malformed(start);
            } else if n > MAX_NUMBER || count >= MAX_PICKS {
                progress.stage = Stage::Over(start);
            } else {
                let (count, row) = (count + 1, n as u32);
                go_on(progress, Want::Times { signed, count, row });
            }
            Ok(())
        }
        Want::Subject(branching) => {
            if n == 0 {
                progress.stage = Stage::Malformed(start);
            } else if n > MAX_NUMBER {
                progress.stage = Stage::Over(start);
            } else {
                go_on(progress, Want::Branches(branching, n as u32));
            }
            Ok(())
        }
        _ => take_token(progress, alloc, start, end, Token::Number(n)),
    }
}
