//! The ends of runs that report nothing: words, texts and files that are refused, limits, schedules that give no run.

ghost use Rattle.std.specs.Prelude.{◌≡◌, ◌++◌, OnOk};
ghost use Rattle.step_report.specs.Refused.{words_refused_text};
ghost use Rattle.step_report.specs.Ends.{answered, end_text};

use crate::limits::limited;
use crate::pushing::push_text;
use crate::refusals::{FaultKind, FileRole, read_fault, refused, trailing};
use crate::traces::{illegal_move, illegal_start, moves_limited, value_limit};
use crate::usage::{Command, words_refused};
use st_memory::Memory;
use st_tokens::LimitKind;

/// How a run ends that reports nothing. Places are byte offsets from 0.
#[derive(Clone, Copy, Debug, PartialEq, Eq)]
pub enum End {
    /// The words ask for nothing that is answered.
    Words,
    /// A file can't be read.
    ReadFault(FileRole),
    /// A limit is passed.
    Limit(LimitKind),
    /// The program breaks a rule.
    Program(FaultKind, u64),
    /// The proof breaks a rule.
    Proof(FaultKind, u64),
    /// The schedule breaks a rule.
    Schedule(FaultKind, u64),
    /// The schedule has more moves than are read.
    Moves,
    /// The initial condition fails in the store of the schedule.
    NoStart,
    /// The move, counted from 0, isn't enabled.
    NotEnabled(u32),
    /// A number is too large at this position.
    TooLarge(u32),
    /// A number is too large while invariants are looked for.
    WideInvariants,
    /// What isn't blank stands behind the last block of certificates.
    Trailing(u64),
}

fn push_words_refused(out: &mut Vec<u8>) -> Result<(), Memory>
    ensures { OnOk result (out.new.items ≡ out.old.items ++ words_refused_text answered) }
{
    let commands = [
        Command::Check,
        Command::Verify,
        Command::Prove,
        Command::Workload,
        Command::Trace,
        Command::Invariants,
    ];
    words_refused(out, &commands)
}

/// Appends the text of an end.
pub fn print(out: &mut Vec<u8>, end: End) -> Result<(), Memory>
    ensures { OnOk result (out.new.items ≡ out.old.items ++ end_text end) }
{
    match end {
        End::Words => push_words_refused(out),
        End::ReadFault(role) => read_fault(out, role),
        End::Limit(kind) => limited(out, kind),
        End::Program(kind, place) => refused(out, FileRole::Program, kind, place),
        End::Proof(kind, place) => refused(out, FileRole::Proof, kind, place),
        End::Schedule(kind, place) => refused(out, FileRole::Schedule, kind, place),
        End::Moves => moves_limited(out),
        End::NoStart => illegal_start(out),
        End::NotEnabled(number) => illegal_move(out, number),
        End::TooLarge(position) => value_limit(out, position),
        End::WideInvariants => push_text(out, b"wide: invariants\n"),
        End::Trailing(place) => trailing(out, place),
    }
}
