//! The ends of runs whose program, proof or schedule is refused.

ghost use Rattle.std.specs.Prelude.{◌≡◌, IfOk};
ghost use Rattle.schedule_reader.specs.Faults.{see};
ghost use Rattle.step_plan.specs.Outcome.{ended_view, IsDecided};
ghost use Rattle.step_run.specs.Outcome.{program_refused, proof_refused};
ghost use Rattle.step_run.specs.Traced.{token_refused, IsEndOf};

use crate::refusals::Refusal;
use schedule_reader::ScheduleFault;
use st_memory::Memory;
use st_tokens::TokenFault;
use std::alloc::Global;
use step_plan::{End, Ended, end};
use step_report::FaultKind;

/// The end of a run whose program is refused.
pub fn program_refused(alloc: Global, refusal: Refusal) -> Result<Ended, Memory>
    ensures outcome { IfOk result (λ e. ended_view e ≡ program_refused refusal) }
    ensures decided { IfOk result (λ e. IsDecided e.status) }
{
    match refusal {
        Refusal::Fault(kind, place) => end(alloc, End::Program(kind, place)),
        Refusal::Limit(kind) => end(alloc, End::Limit(kind)),
        Refusal::Memory => Err(Memory),
    }
}

/// The end of a run whose proof is refused.
pub fn proof_refused(alloc: Global, refusal: Refusal) -> Result<Ended, Memory>
    ensures outcome { IfOk result (λ e. ended_view e ≡ proof_refused refusal) }
    ensures decided { IfOk result (λ e. IsDecided e.status) }
{
    match refusal {
        Refusal::Fault(kind, place) => end(alloc, End::Proof(kind, place)),
        Refusal::Limit(kind) => end(alloc, End::Limit(kind)),
        Refusal::Memory => Err(Memory),
    }
}

fn token_refused(alloc: Global, fault: TokenFault) -> Result<Ended, Memory>
    ensures { IfOk result (λ e. ended_view e ≡ token_refused fault) }
{
    match fault {
        TokenFault::BadByte(place) => end(alloc, End::Schedule(FaultKind::BadByte, place)),
        TokenFault::LongNumber(place) => end(alloc, End::Schedule(FaultKind::LongNumber, place)),
    }
}

/// The end of a run whose schedule is refused.
pub fn schedule_refused(alloc: Global, fault: ScheduleFault) -> Result<Ended, Memory>
    ensures { IfOk result (λ e. IsEndOf (see fault) (ended_view e)) }
{
    match fault {
        ScheduleFault::Token(fault) => token_refused(alloc, fault),
        ScheduleFault::Syntax(place) => end(alloc, End::Schedule(FaultKind::Syntax, place)),
        ScheduleFault::Unknown(place) => end(alloc, End::Schedule(FaultKind::Unknown, place)),
        ScheduleFault::Twice(place) => end(alloc, End::Schedule(FaultKind::Twice, place)),
        ScheduleFault::WrongType(place) => end(alloc, End::Schedule(FaultKind::WrongType, place)),
        ScheduleFault::Unset(place) => end(alloc, End::Schedule(FaultKind::Unset, place)),
        ScheduleFault::UnknownTransition(place) => {
            end(alloc, End::Schedule(FaultKind::UnknownTransition, place))
        }
        ScheduleFault::Moves(_) => end(alloc, End::Moves),
        ScheduleFault::Memory => Err(Memory),
    }
}
