//! A file that is read piece by piece, up to its end or past a limit.

ghost use Rattle.std.specs.Prelude.{◌≡◌, ℕ, ◌+◌, ◌-◌, ◌^◌, ◌<◌, ◌≤◌, List, length, take, IfOk, OnOk, IsErrOf};
ghost use Rattle.st_outside.specs.Faults.{Rose, NoneFell};
ghost use Rattle.step_plan.specs.Reading.{AreTold, IsPast};

use st_outside::{Failed, Files};
use std::alloc::Global;
use thiserror::Error;

/// Why a file's bytes aren't handed on.
#[derive(Error, Debug, Clone, Copy, PartialEq, Eq)]
pub enum ReadError {
    #[error("the file can't be read")]
    Failed,
    #[error("the file is too long")]
    TooLong,
    #[error("out of memory")]
    Memory,
}

const PIECE: usize = 4096;

/// Reads a file to its end, or to the first byte past the limit.
pub fn read_whole<F: Files>(
    alloc: Global,
    files: &mut F,
    name: &str,
    limit: u64,
) -> Result<Vec<u8>, ReadError>
    requires { limit ≤ 2 ^ 28 }
    ensures bytes { IfOk result (λ v. AreTold (F.told files.old name.now) v.items) }
    ensures within { IfOk result (λ v. length v.items ≤ limit) }
    ensures past { IsErrOf result ReadError.TooLong → IsPast (F.told files.old name.now) limit }
    ensures same { F.told files.new ≡ F.told files.old }
    ensures later { NoneFell (F.faults files.old) (F.faults files.new) }
    ensures quiet { (IsErrOf result ReadError.Failed → ⊥) → F.faults files.new ≡ F.faults files.old }
    ensures cause { IsErrOf result ReadError.Failed → Rose (F.faults files.old name.now) (F.faults files.new name.now) }
{
    let mut bytes = Vec::new(alloc);
    let mut buf = [0u8; PIECE];
    while bytes.len() as u64 <= limit {
        let Ok(count) = files.read_at(name, bytes.len() as u64, &mut buf) else {
            return Err(ReadError::Failed);
        };
        if count == 0 {
            return Ok(bytes);
        }
        if bytes.extend_from_slice(&buf[..count]).is_err() {
            return Err(ReadError::Memory);
        }
    }
    Err(ReadError::TooLong)
}
