//! A refusal of any text, by its kind and place.

ghost use Rattle.std.specs.Prelude.{◌≡◌, IfOk, Some};
ghost use Rattle.st_reading.specs.Reading.{fault_place};
ghost use Rattle.fault_reports.specs.Refused.{parse_place, schedule_place, script_place, typing_place};

use expression_typer::TypeFault;
use proof_script::{ScriptFault, ScriptKind};
use schedule_reader::ScheduleFault;
use st_memory::Memory;
use st_reading::ParseFault;
use st_tokens::{LimitKind, TokenFault};

/// What is wrong.
#[derive(Clone, Copy, Debug, PartialEq, Eq)]
pub(crate) enum Kind {
    Syntax,
    BadByte,
    LongNumber,
    Unknown,
    Twice,
    WrongType,
    NonLinear,
    TooLarge,
    InputAssigned,
    SelectHead,
    SameTarget,
    UnknownLemma,
    NotInvariant,
    WrongCount,
    UnknownTransition,
    UnknownNode,
    Upward,
    NoTerminal,
    UnfairHelper,
    NotCompassionate,
    NoHelper,
    Unset,
    Moves,
    Limit(LimitKind),
}

/// What is wrong, and the byte offset from 0 at which it is.
#[derive(Clone, Copy, Debug, PartialEq, Eq)]
pub(crate) struct Refusal {
    pub kind: Kind,
    pub place: u64,
}

fn at(kind: Kind, place: u64) -> Refusal
    ensures { result.place ≡ place }
{
    Refusal { kind, place }
}

fn of_token(fault: TokenFault) -> Refusal
    ensures { result.place ≡ fault_place fault }
{
    match fault {
        TokenFault::BadByte(place) => at(Kind::BadByte, place),
        TokenFault::LongNumber(place) => at(Kind::LongNumber, place),
    }
}

pub(crate) fn of_parse(fault: ParseFault) -> Result<Refusal, Memory>
    ensures { IfOk result (λ r. parse_place fault ≡ Some r.place) }
{
    match fault {
        ParseFault::Syntax(place) => Ok(at(Kind::Syntax, place)),
        ParseFault::Token(fault) => Ok(of_token(fault)),
        ParseFault::Limit(kind, place) => Ok(at(Kind::Limit(kind), place)),
        ParseFault::Memory => Err(Memory),
    }
}

pub(crate) fn of_typing(fault: TypeFault) -> Result<Refusal, Memory>
    ensures { IfOk result (λ r. typing_place fault ≡ Some r.place) }
{
    match fault {
        TypeFault::Unknown(place) => Ok(at(Kind::Unknown, place)),
        TypeFault::Twice(place) => Ok(at(Kind::Twice, place)),
        TypeFault::WrongType(place) => Ok(at(Kind::WrongType, place)),
        TypeFault::NonLinear(place) => Ok(at(Kind::NonLinear, place)),
        TypeFault::TooLarge(place) => Ok(at(Kind::TooLarge, place)),
        TypeFault::InputAssigned(place) => Ok(at(Kind::InputAssigned, place)),
        TypeFault::SelectHead(place) => Ok(at(Kind::SelectHead, place)),
        TypeFault::SameTarget(place) => Ok(at(Kind::SameTarget, place)),
        TypeFault::Limit(kind, place) => Ok(at(Kind::Limit(kind), place)),
        TypeFault::Memory => Err(Memory),
    }
}

fn of_kind(kind: ScriptKind) -> Kind {
    match kind {
        ScriptKind::Syntax => Kind::Syntax,
        ScriptKind::BadByte => Kind::BadByte,
        ScriptKind::LongNumber => Kind::LongNumber,
        ScriptKind::Unknown => Kind::Unknown,
        ScriptKind::WrongType => Kind::WrongType,
        ScriptKind::NonLinear => Kind::NonLinear,
        ScriptKind::TooLarge => Kind::TooLarge,
        ScriptKind::Twice => Kind::Twice,
        ScriptKind::UnknownLemma => Kind::UnknownLemma,
        ScriptKind::NotInvariant => Kind::NotInvariant,
        ScriptKind::WrongCount => Kind::WrongCount,
        ScriptKind::UnknownTransition => Kind::UnknownTransition,
        ScriptKind::UnknownNode => Kind::UnknownNode,
        ScriptKind::Upward => Kind::Upward,
        ScriptKind::NoTerminal => Kind::NoTerminal,
        ScriptKind::UnfairHelper => Kind::UnfairHelper,
        ScriptKind::NotCompassionate => Kind::NotCompassionate,
        ScriptKind::NoHelper => Kind::NoHelper,
        ScriptKind::Limit(kind) => Kind::Limit(kind),
    }
}

pub(crate) fn of_script(fault: ScriptFault) -> Result<Refusal, Memory>
    ensures { IfOk result (λ r. script_place fault ≡ Some r.place) }
{
    match fault {
        ScriptFault::At(kind, place) => Ok(at(of_kind(kind), place)),
        ScriptFault::Memory => Err(Memory),
    }
}

pub(crate) fn of_schedule(fault: ScheduleFault) -> Result<Refusal, Memory>
    ensures { IfOk result (λ r. schedule_place fault ≡ Some r.place) }
{
    match fault {
        ScheduleFault::Token(fault) => Ok(of_token(fault)),
        ScheduleFault::Syntax(place) => Ok(at(Kind::Syntax, place)),
        ScheduleFault::Unknown(place) => Ok(at(Kind::Unknown, place)),
        ScheduleFault::Twice(place) => Ok(at(Kind::Twice, place)),
        ScheduleFault::WrongType(place) => Ok(at(Kind::WrongType, place)),
        ScheduleFault::Unset(place) => Ok(at(Kind::Unset, place)),
        ScheduleFault::UnknownTransition(place) => Ok(at(Kind::UnknownTransition, place)),
        ScheduleFault::Moves(place) => Ok(at(Kind::Moves, place)),
        ScheduleFault::Memory => Err(Memory),
    }
}
