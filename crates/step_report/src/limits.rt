//! The limits, each as one constant, and the text for one that is passed.

ghost use Rattle.std.specs.Prelude.{◌≡◌, ◌++◌, OnOk};
ghost use Rattle.step_report.specs.Limits.{limit_name, most, limit_text};

use crate::pushing::{push_number, push_text};
use st_memory::Memory;
use st_tokens::LimitKind;

fn limit_name(kind: LimitKind) -> &'static [u8]
    ensures { result.now ≡ limit_name kind }
{
    match kind {
        LimitKind::Text => b"Text".as_slice(),
        LimitKind::Certificates => b"Certificates".as_slice(),
        LimitKind::Variables => b"Variables".as_slice(),
        LimitKind::Processes => b"Processes".as_slice(),
        LimitKind::Statements => b"Statements".as_slice(),
        LimitKind::Nesting => b"Nesting".as_slice(),
        LimitKind::Nodes => b"Nodes".as_slice(),
        LimitKind::Conditions => b"Conditions".as_slice(),
        LimitKind::Atoms => b"Atoms".as_slice(),
        LimitKind::Weight => b"Weight".as_slice(),
        LimitKind::Paths => b"Paths".as_slice(),
    }
}

/// The most that a limit lets through.
pub fn most(kind: LimitKind) -> u64
    ensures { result ≡ most kind }
{
    match kind {
        LimitKind::Text => 4_194_304,
        LimitKind::Certificates => 268_435_456,
        LimitKind::Variables => 64,
        LimitKind::Processes => 16,
        LimitKind::Statements => 400,
        LimitKind::Nesting => 32,
        LimitKind::Nodes => 64,
        LimitKind::Conditions => 20_000,
        LimitKind::Atoms => 2_048,
        LimitKind::Weight => 16_777_216,
        LimitKind::Paths => 64,
    }
}

/// Appends the text for a limit that is passed.
pub fn limited(out: &mut Vec<u8>, kind: LimitKind) -> Result<(), Memory>
    ensures { OnOk result (out.new.items ≡ out.old.items ++ limit_text kind) }
{
    push_text(out, b"limit: ")?;
    push_text(out, limit_name(kind))?;
    push_text(out, b" ")?;
    push_number(out, most(kind))?;
    push_text(out, b"\n")
}
