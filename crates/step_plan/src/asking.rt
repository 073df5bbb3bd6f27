//! A file that is asked for: its bytes, or the run's end.

ghost use Rattle.std.specs.Prelude.{◌≡◌, ◌≤◌, length, IfOk};
ghost use Rattle.st_outside.specs.Faults.{NoneFell};
ghost use Rattle.step_plan.specs.Limits.{length_limit};
ghost use Rattle.step_plan.specs.Plan.{file_plan};
ghost use Rattle.step_plan.specs.Stage.{Comes, IfOn, bytes_view};

use crate::ends::end;
use crate::limits::{length_kind, length_limit};
use crate::reading::{ReadError, read_whole};
use crate::{FileRole, Stage};
use st_memory::Memory;
use st_outside::Files;
use std::alloc::Global;
use step_report::End;

/// Asks for the bytes of a file.
pub fn ask<F: Files>(
    alloc: Global,
    files: &mut F,
    role: FileRole,
    name: &str,
) -> Result<Stage<Vec<u8>>, Memory>
    ensures comes { IfOk result (Comes bytes_view (F.told files.old) (F.faults files.old) (F.faults files.new) (file_plan role name.now)) }
    ensures within { IfOk result (λ s. IfOn s (λ bytes. length bytes.items ≤ length_limit role)) }
    ensures same { F.told files.new ≡ F.told files.old }
    ensures later { NoneFell (F.faults files.old) (F.faults files.new) }
{
    match read_whole(alloc, files, name, length_limit(role)) {
        Ok(bytes) => Ok(Stage::On(bytes)),
        Err(ReadError::TooLong) => Ok(Stage::Over(end(alloc, End::Limit(length_kind(role)))?)),
        Err(ReadError::Failed) => Ok(Stage::Over(end(alloc, End::ReadFault(role))?)),
        Err(ReadError::Memory) => Err(Memory),
    }
}
