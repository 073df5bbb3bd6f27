//! Why the text of a program or of a proof is refused.

ghost use Rattle.std.specs.Prelude.{◌≡◌};
ghost use Rattle.proof_script.specs.Faults.{stop_at};
ghost use Rattle.step_run.specs.Outcome.{proof_refused, script_refused};
ghost use Rattle.step_run.specs.Refusals.{of_token};

use proof_script::{ScriptFault, ScriptKind};
use spl_parser::ParseFault;
use spl_typer::TypeFault;
use st_tokens::{LimitKind, TokenFault};
use step_report::FaultKind;

/// Why a text is refused.
#[derive(Clone, Copy, Debug, PartialEq, Eq)]
pub enum Refusal {
    /// A rule is broken at a place, a byte offset from 0.
    Fault(FaultKind, u64),
    /// A limit is passed.
    Limit(LimitKind),
    Memory,
}

fn of_token(fault: TokenFault) -> Refusal
    ensures { result ≡ of_token fault }
{
    match fault {
        TokenFault::BadByte(place) => Refusal::Fault(FaultKind::BadByte, place),
        TokenFault::LongNumber(place) => Refusal::Fault(FaultKind::LongNumber, place),
    }
}

impl From<ParseFault> for Refusal {
    ghost use Rattle.st_reading.specs.Faults.{see};
    ghost use Rattle.step_run.specs.Refusals.{IsRefusal};

    ghost from_gives = { λ fault refusal. IsRefusal refusal (see fault) };

    fn from(fault: ParseFault) -> Self {
        match fault {
            ParseFault::Syntax(place) => Refusal::Fault(FaultKind::Syntax, place),
            ParseFault::Token(fault) => of_token(fault),
            ParseFault::Limit(kind, _) => Refusal::Limit(kind),
            ParseFault::Memory => Refusal::Memory,
        }
    }
}

impl From<TypeFault> for Refusal {
    ghost use Rattle.std.specs.Prelude.{◌≡◌};
    ghost use Rattle.step_run.specs.Refusals.{of_rule};

    ghost from_gives = { λ fault refusal. refusal ≡ of_rule fault };

    fn from(fault: TypeFault) -> Self {
        match fault {
            TypeFault::Unknown(place) => Refusal::Fault(FaultKind::Unknown, place),
            TypeFault::Twice(place) => Refusal::Fault(FaultKind::Twice, place),
            TypeFault::WrongType(place) => Refusal::Fault(FaultKind::WrongType, place),
            TypeFault::NonLinear(place) => Refusal::Fault(FaultKind::NonLinear, place),
            TypeFault::TooLarge(place) => Refusal::Fault(FaultKind::TooLarge, place),
            TypeFault::InputAssigned(place) => Refusal::Fault(FaultKind::InputAssigned, place),
            TypeFault::SelectHead(place) => Refusal::Fault(FaultKind::SelectHead, place),
            TypeFault::SameTarget(place) => Refusal::Fault(FaultKind::SameTarget, place),
            TypeFault::Limit(kind, _) => Refusal::Limit(kind),
            TypeFault::Memory => Refusal::Memory,
        }
    }
}

/// The first fault of a script.
fn of_kind(kind: ScriptKind, place: u64) -> Refusal
    ensures { proof_refused result ≡ script_refused (stop_at kind place) }
{
    match kind {
        ScriptKind::Syntax => Refusal::Fault(FaultKind::Syntax, place),
        ScriptKind::BadByte => Refusal::Fault(FaultKind::BadByte, place),
        ScriptKind::LongNumber => Refusal::Fault(FaultKind::LongNumber, place),
        ScriptKind::Unknown => Refusal::Fault(FaultKind::Unknown, place),
        ScriptKind::WrongType => Refusal::Fault(FaultKind::WrongType, place),
        ScriptKind::NonLinear => Refusal::Fault(FaultKind::NonLinear, place),
        ScriptKind::TooLarge => Refusal::Fault(FaultKind::TooLarge, place),
        ScriptKind::Twice => Refusal::Fault(FaultKind::Twice, place),
        ScriptKind::UnknownLemma => Refusal::Fault(FaultKind::UnknownLemma, place),
        ScriptKind::NotInvariant => Refusal::Fault(FaultKind::NotInvariant, place),
        ScriptKind::WrongCount => Refusal::Fault(FaultKind::WrongCount, place),
        ScriptKind::UnknownTransition => Refusal::Fault(FaultKind::UnknownTransition, place),
        ScriptKind::UnknownNode => Refusal::Fault(FaultKind::UnknownNode, place),
        ScriptKind::Upward => Refusal::Fault(FaultKind::Upward, place),
        ScriptKind::NoTerminal => Refusal::Fault(FaultKind::NoTerminal, place),
        ScriptKind::UnfairHelper => Refusal::Fault(FaultKind::UnfairHelper, place),
        ScriptKind::NotCompassionate => Refusal::Fault(FaultKind::NotCompassionate, place),
        ScriptKind::NoHelper => Refusal::Fault(FaultKind::NoHelper, place),
        ScriptKind::Limit(kind) => Refusal::Limit(kind),
    }
}

impl From<ScriptFault> for Refusal {
    ghost use Rattle.proof_script.specs.Faults.{see};
    ghost use Rattle.step_run.specs.Outcome.{IsScriptRefusal};

    ghost from_gives = { λ fault refusal. IsScriptRefusal (see fault) refusal };

    fn from(fault: ScriptFault) -> Self {
        match fault {
            ScriptFault::At(kind, place) => of_kind(kind, place),
            ScriptFault::Memory => Refusal::Memory,
        }
    }
}
