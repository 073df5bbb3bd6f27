//! Texts of versions 1 and 2, their certificates sharing their trees.

ghost use Rattle.std.specs.Prelude.{◌≡◌, ◌+◌, ◌-◌, ◌<◌, ◌≤◌, ◌^◌, OnOk, map};
ghost use Rattle.cert_text.specs.Held.{taken_from};
ghost use Rattle.st_certificate.specs.Plain.{plain};
ghost use Rattle.certificate_versions.specs.Versions.{AreAllOf, IsNext, Shares, whole};

use cert_text::{CertReader, NextBlock};
use certificate_sharing::shared;
use shared_certificates::Refusal;
use shared_writing::write;
use st_certificate::Certificate;
use st_memory::Memory;
use std::alloc::{AllocError, AllocFailed, Global};
use thiserror::Error;

/// So many certificates at most are read of a text; it would have some 60 gigabytes.
const MOST: u32 = 4_294_967_290;

/// Why a text of version 1 or 2 has no text of version 3.
#[derive(Clone, Copy, Debug, PartialEq, Eq, Error)]
pub enum Unread {
    /// No certificate is written as the text goes on at this place.
    #[error("malformed")]
    Malformed(u64),
    /// A limit is passed at this place.
    #[error("over a limit")]
    Limit(u64),
    /// A tree has more than 400 levels.
    #[error("too deep")]
    Deep,
    /// Memory was asked for and refused.
    #[error("out of memory")]
    Memory,
}

impl From<Memory> for Unread {
    ghost use Rattle.std.specs.Prelude.{◌≡◌};
    ghost use Rattle.certificate_versions.specs.declared.sharing.Unread.TheVariants.{Memory};

    ghost from_gives = { λ _ refusal. refusal ≡ Memory };

    fn from(_: Memory) -> Self {
        Unread::Memory
    }
}

impl From<AllocError> for Unread {
    ghost use Rattle.std.specs.Prelude.{◌≡◌};
    ghost use Rattle.certificate_versions.specs.declared.sharing.Unread.TheVariants.{Memory};

    ghost from_gives = { λ _ refusal. refusal ≡ Memory };

    fn from(_: AllocError) -> Self {
        Unread::Memory
    }
}

impl<T: Drop> From<AllocFailed<T>> for Unread {
    ghost use Rattle.std.specs.Prelude.{◌≡◌};
    ghost use Rattle.certificate_versions.specs.declared.sharing.Unread.TheVariants.{Memory};

    ghost from_gives = { λ _ refusal. refusal ≡ Memory };

    fn from(_: AllocFailed<T>) -> Self {
        Unread::Memory
    }
}

/// The next certificate; none where only blanks are left. A reader of a text that is finished never needs more.
fn next(reader: &mut CertReader) -> Result<Option<Certificate>, Unread>
    requires { reader.old.number < 2 ^ 32 - 1 }
    ensures next { IsNext reader.old result }
    ensures taken { OnOk result (reader.new ≡ taken_from reader.old) }
{
    match reader.next_block()? {
        NextBlock::Block(block) => Ok(Some(block.certificate)),
        NextBlock::End => Ok(None),
        NextBlock::Malformed(place) => Err(Unread::Malformed(place)),
        NextBlock::CertLimit(place) => Err(Unread::Limit(place)),
        NextBlock::Need => Err(Unread::Memory),
    }
}

/// The certificates of a text, which the reader has whole.
fn read_all(alloc: Global, reader: &mut CertReader) -> Result<Vec<Certificate>, Unread>
    requires { reader.old.number ≤ 1 }
    ensures { AreAllOf reader.old result }
{
    let mut out = Vec::new(alloc);
    for n in 0..MOST {
        match next(reader)? {
            Some(certificate) => out.push(certificate)?,
            None => return Ok(out),
        }
    }
    Err(Unread::Memory)
}

fn certificates_of(alloc: Global, text: &[u8]) -> Result<Vec<Certificate>, Unread>
    ensures { AreAllOf (whole text.now) result }
{
    let mut reader = CertReader::new(alloc);
    reader.push(text)?;
    reader.finish();
    read_all(alloc, &mut reader)
}

/// The text of version 3 that has the certificates of a text of version 1 or 2, equal trees mostly once; or why there is none.
pub fn shared_text(alloc: Global, text: &[u8]) -> Result<Vec<u8>, Unread>
    ensures { Shares (whole text.now) result }
{
    let certificates = certificates_of(alloc, text)?;
    match shared(alloc, certificates.as_slice()) {
        Ok(table) => Ok(write(alloc, &table)?),
        Err(Refusal::Memory) => Err(Unread::Memory),
        Err(_) => Err(Unread::Deep),
    }
}
