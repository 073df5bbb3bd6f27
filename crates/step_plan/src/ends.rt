//! The ends of runs that report nothing: which status they have, and with it the text.

ghost use Rattle.std.specs.Prelude.{◌≡◌, IfOk};
ghost use Rattle.step_plan.specs.Ends.{status_of, end_view};
ghost use Rattle.step_plan.specs.Outcome.{ended_view};

use crate::{Ended, Status};
use st_memory::Memory;
use std::alloc::Global;
use step_report::End;

fn status_of(end: End) -> Status
    ensures { result ≡ status_of end }
{
    match end {
        End::Words => Status::Words,
        End::ReadFault(_) => Status::ReadFault,
        End::Limit(_) => Status::Limit,
        End::Program(_, _) => Status::ProgramRefused,
        End::Proof(_, _) => Status::ProofRefused,
        End::Schedule(_, _) => Status::ScheduleRefused,
        End::Moves => Status::Limit,
        End::NoStart => Status::Illegal,
        End::NotEnabled(_) => Status::Illegal,
        End::TooLarge(_) => Status::ValueLimit,
        End::WideInvariants => Status::InvariantsWide,
        End::Trailing(_) => Status::TrailingCerts,
    }
}

/// A run ends so.
pub fn end(alloc: Global, end: End) -> Result<Ended, Memory>
    ensures { IfOk result (λ e. ended_view e ≡ end_view end) }
{
    let mut text = Vec::new(alloc);
    step_report::print(&mut text, end)?;
    Ok(Ended {
        status: status_of(end),
        text,
    })
}
