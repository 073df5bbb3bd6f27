//! How long a file may be, and the end of a run that passes a limit.

ghost use Rattle.std.specs.Prelude.{◌≡◌, IfOk};
ghost use Rattle.step_plan.specs.Limits.{length_limit, length_kind, limited};
ghost use Rattle.step_plan.specs.Outcome.{ended_view};

use crate::ends::end;
use crate::{Ended, FileRole};
use st_memory::Memory;
use st_tokens::LimitKind;
use std::alloc::Global;
use step_report::{End, most};

/// The limit that a longer file passes.
pub fn length_kind(role: FileRole) -> LimitKind
    ensures { result ≡ length_kind role }
{
    match role {
        FileRole::Program => LimitKind::Text,
        FileRole::Proof => LimitKind::Text,
        FileRole::Certificates => LimitKind::Certificates,
        FileRole::Schedule => LimitKind::Text,
    }
}

/// The most bytes of a file.
pub fn length_limit(role: FileRole) -> u64
    ensures { result ≡ length_limit role }
{
    most(length_kind(role))
}

/// The end of a run that passes a limit.
pub fn limited(alloc: Global, kind: LimitKind) -> Result<Ended, Memory>
    ensures { IfOk result (λ e. ended_view e ≡ limited kind) }
{
    end(alloc, End::Limit(kind))
}
