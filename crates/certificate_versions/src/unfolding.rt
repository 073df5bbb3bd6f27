//! Texts of version 3, unfolded.

ghost use Rattle.std.specs.Prelude.{◌≡◌};
ghost use Rattle.shared_certificates.specs.Lines.{lines};
ghost use Rattle.shared_certificates.specs.Nodes.{certificates, table_view};
ghost use Rattle.shared_certificates.specs.Reading.{text_read};
ghost use Rattle.certificate_versions.specs.Versions.{IsUnfolded, Unfolds, unfit_of};

use certificate_unfolding::version_2;
use shared_certificates::Table;
use shared_reading::read;
use std::alloc::Global;
use thiserror::Error;

/// Why a text of version 3 has no text of version 2.
#[derive(Clone, Copy, Debug, PartialEq, Eq, Error)]
pub enum Unfit {
    /// The line that begins at this place isn't one that may stand behind those before.
    #[error("malformed")]
    Malformed(usize),
    /// A number of this line, or how many there are of something, passes its limit.
    #[error("over a limit")]
    Limit(usize),
    /// The certificate of this number, which counts from 0, is the first that has more than 100,000 trees.
    #[error("certificate too large")]
    Large(usize),
    /// The text of version 2 has more than 268,435,456 bytes.
    #[error("text too long")]
    Long,
    /// Memory was asked for and refused.
    #[error("out of memory")]
    Memory,
}

fn of_line(fault: shared_certificates::Fault) -> Unfit
    ensures { result ≡ unfit_of fault.refusal fault.place }
{
    match fault.refusal {
        shared_certificates::Refusal::Malformed => Unfit::Malformed(fault.place),
        shared_certificates::Refusal::Limit => Unfit::Limit(fault.place),
        shared_certificates::Refusal::Memory => Unfit::Memory,
    }
}

fn of_table(alloc: Global, table: &Table) -> Result<Vec<u8>, Unfit>
    ensures { IsUnfolded result (certificates (table_view table.now)) }
{
    match version_2(alloc, table) {
        Ok(text) => Ok(text),
        Err(certificate_unfolding::Refusal::Large(index)) => Err(Unfit::Large(index)),
        Err(certificate_unfolding::Refusal::Long) => Err(Unfit::Long),
        Err(certificate_unfolding::Refusal::Memory) => Err(Unfit::Memory),
    }
}

/// The text of version 2 that has the certificates of a text of version 3, or why there is none.
pub fn unfolded(alloc: Global, text: &[u8]) -> Result<Vec<u8>, Unfit>
    ensures { Unfolds result (text_read (lines text.now)) }
{
    match read(alloc, text) {
        Ok(table) => of_table(alloc, &table),
        Err(fault) => Err(of_line(fault)),
    }
}
