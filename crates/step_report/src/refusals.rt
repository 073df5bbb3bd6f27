//! The texts of files that aren't read, and of texts that are refused.

ghost use Rattle.std.specs.Prelude.{◌≡◌, ◌++◌, OnOk};
ghost use Rattle.step_report.specs.Refused.{role_text, read_fault_text, kind_text, refused_text, trailing_text};

use crate::pushing::{push_number, push_text};
use st_memory::Memory;

/// What a file is to the run.
#[derive(Clone, Copy, Debug, PartialEq, Eq)]
pub enum FileRole {
    Program,
    Proof,
    Certificates,
    Schedule,
}

/// What is wrong at the first place where a text breaks a rule.
#[derive(Clone, Copy, Debug, PartialEq, Eq)]
pub enum FaultKind {
    Syntax,
    BadByte,
    LongNumber,
    Unknown,
    Twice,
    WrongType,
    NonLinear,
    TooLarge,
    InputAssigned,
    SelectHead,
    SameTarget,
    UnknownLemma,
    NotInvariant,
    WrongCount,
    UnknownTransition,
    UnknownNode,
    Upward,
    NoTerminal,
    UnfairHelper,
    NotCompassionate,
    NoHelper,
    Unset,
}

fn role_text(role: FileRole) -> &'static [u8]
    ensures { result.now ≡ role_text role }
{
    match role {
        FileRole::Program => b"program".as_slice(),
        FileRole::Proof => b"proof".as_slice(),
        FileRole::Certificates => b"certificates".as_slice(),
        FileRole::Schedule => b"schedule".as_slice(),
    }
}

/// Appends the text for a file that can't be read.
pub fn read_fault(out: &mut Vec<u8>, role: FileRole) -> Result<(), Memory>
    ensures { OnOk result (out.new.items ≡ out.old.items ++ read_fault_text role) }
{
    push_text(out, b"read fault: ")?;
    push_text(out, role_text(role))?;
    push_text(out, b"\n")
}

fn kind_text(kind: FaultKind) -> &'static [u8]
    ensures { result.now ≡ kind_text kind }
{
    match kind {
        FaultKind::Syntax => b"Syntax".as_slice(),
        FaultKind::BadByte => b"BadByte".as_slice(),
        FaultKind::LongNumber => b"LongNumber".as_slice(),
        FaultKind::Unknown => b"Unknown".as_slice(),
        FaultKind::Twice => b"Twice".as_slice(),
        FaultKind::WrongType => b"WrongType".as_slice(),
        FaultKind::NonLinear => b"NonLinear".as_slice(),
        FaultKind::TooLarge => b"TooLarge".as_slice(),
        FaultKind::InputAssigned => b"InputAssigned".as_slice(),
        FaultKind::SelectHead => b"SelectHead".as_slice(),
        FaultKind::SameTarget => b"SameTarget".as_slice(),
        FaultKind::UnknownLemma => b"UnknownLemma".as_slice(),
        FaultKind::NotInvariant => b"NotInvariant".as_slice(),
        FaultKind::WrongCount => b"WrongCount".as_slice(),
        FaultKind::UnknownTransition => b"UnknownTransition".as_slice(),
        FaultKind::UnknownNode => b"UnknownNode".as_slice(),
        FaultKind::Upward => b"Upward".as_slice(),
        FaultKind::NoTerminal => b"NoTerminal".as_slice(),
        FaultKind::UnfairHelper => b"UnfairHelper".as_slice(),
        FaultKind::NotCompassionate => b"NotCompassionate".as_slice(),
        FaultKind::NoHelper => b"NoHelper".as_slice(),
        FaultKind::Unset => b"Unset".as_slice(),
    }
}

/// Appends the text for a program, a proof or a schedule that breaks a rule at a place, a byte offset from 0.
pub fn refused(out: &mut Vec<u8>, role: FileRole, kind: FaultKind, place: u64) -> Result<(), Memory>
    ensures { OnOk result (out.new.items ≡ out.old.items ++ refused_text role kind place) }
{
    push_text(out, role_text(role))?;
    push_text(out, b" refused: ")?;
    push_text(out, kind_text(kind))?;
    push_text(out, b" at ")?;
    push_number(out, place)?;
    push_text(out, b"\n")
}

/// Appends the text for certificates behind whose last block, at this byte from 0 on, something stands that isn't blank.
pub fn trailing(out: &mut Vec<u8>, place: u64) -> Result<(), Memory>
    ensures { OnOk result (out.new.items ≡ out.old.items ++ trailing_text place) }
{
    push_text(out, b"trailing text at ")?;
    push_number(out, place)?;
    push_text(out, b"\n")
}
