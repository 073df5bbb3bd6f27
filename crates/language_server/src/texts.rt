//! A program and a proof as they are looked at together.

use crate::documents::{Documents, program_of, proof_of};
use source_parts::parted;
use st_memory::Memory;
use std::alloc::Global;

/// Files that aren't open in the editor.
pub trait Disk {
    /// The text of a file, where it can be read.
    fn text(&mut self, uri: &str) -> Result<Option<Vec<u8>>, Memory>;
}

/// A text and its file.
#[derive(Drop)]
pub struct Source {
    pub uri: String,
    pub text: Vec<u8>,
}

/// A program, and the proof that belongs to it. Where both stand in one text, the proof has blanks for the program, so that its
/// places are those of the text.
#[derive(Drop)]
pub struct Pair {
    pub program: Source,
    pub proof: Option<Source>,
}

fn copy_of(alloc: Global, uri: &str, text: &[u8]) -> Result<Source, Memory> {
    Ok(Source {
        uri: String::from_str(alloc, uri)?,
        text: Vec::from_slice(alloc, text)?,
    })
}

/// The text of a file: what is open of it, or else what stands on the disk.
fn held<D: Disk>(
    alloc: Global,
    documents: &Documents,
    disk: &mut D,
    uri: &str,
) -> Result<Option<Source>, Memory> {
    if let Some(text) = documents.get(uri) {
        return Ok(Some(copy_of(alloc, uri, text)?));
    }
    match disk.text(uri)? {
        Some(text) => Ok(Some(Source {
            uri: String::from_str(alloc, uri)?,
            text,
        })),
        None => Ok(None),
    }
}

/// The two parts of one text.
fn parts(alloc: Global, uri: &str, text: &[u8]) -> Result<Pair, Memory> {
    match parted(alloc, text)? {
        Some(parts) => Ok(Pair {
            program: copy_of(alloc, uri, parts.program)?,
            proof: Some(Source {
                uri: String::from_str(alloc, uri)?,
                text: parts.proof,
            }),
        }),
        None => Ok(Pair {
            program: copy_of(alloc, uri, text)?,
            proof: None,
        }),
    }
}

/// The program with its proof to which a file belongs; `None` where the program isn't to be had.
pub fn pair_of<D: Disk>(
    alloc: Global,
    documents: &Documents,
    disk: &mut D,
    uri: &str,
) -> Result<Option<Pair>, Memory> {
    if let Some(name) = program_of(alloc, uri)? {
        let proof = held(alloc, documents, disk, uri)?;
        return match held(alloc, documents, disk, name.as_str())? {
            Some(program) => Ok(Some(Pair { program, proof })),
            None => Ok(None),
        };
    }
    let Some(whole) = held(alloc, documents, disk, uri)? else {
        return Ok(None);
    };
    let mut pair = parts(alloc, uri, whole.text.as_slice())?;
    if pair.proof.is_none()
        && let Some(name) = proof_of(alloc, uri)?
    {
        pair.proof = held(alloc, documents, disk, name.as_str())?;
    }
    Ok(Some(pair))
}
