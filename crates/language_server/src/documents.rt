//! The texts that are open, and which belong together.
//!
//! A program and its proof stand in one text, parted by a line `proof`; or in two files of one folder, `program` and `proof`; or
//! in two files `NAME.spl` and `NAME.proof`.

use st_memory::Memory;
use std::alloc::Global;

/// A text that is open in the editor.
#[derive(Drop)]
pub struct Document {
    pub uri: String,
    pub text: Vec<u8>,
}

/// The texts that are open.
#[derive(Drop)]
pub struct Documents {
    open: Vec<Document>,
}

impl Documents {
    pub fn new(alloc: Global) -> Documents {
        Documents {
            open: Vec::new(alloc),
        }
    }

    pub fn get(&self, uri: &str) -> Option<&[u8]> {
        let document = self.open.iter().find(|it| it.uri.as_str() == uri)?;
        Some(document.text.as_slice())
    }

    /// Holds a text, in place of the one that was held before.
    pub fn put(&mut self, alloc: Global, uri: &str, text: &[u8]) -> Result<(), Memory> {
        let text = Vec::from_slice(alloc, text)?;
        self.close(uri);
        let uri = String::from_str(alloc, uri)?;
        self.open.push(Document { uri, text })?;
        Ok(())
    }

    pub fn close(&mut self, uri: &str) {
        self.open.retain(|it| it.uri.as_str() != uri);
    }
}

/// The name of the other file, where the last part of a name is one of these.
fn exchanged(alloc: Global, uri: &str, from: &str, to: &str) -> Result<Option<String>, Memory> {
    let Some(front) = uri.strip_suffix(from) else {
        return Ok(None);
    };
    let mut out = String::from_str(alloc, front)?;
    out.push_str(to)?;
    Ok(Some(out))
}

/// The file of the program to which the proof in this file belongs; `None` where the file is no proof by its name.
pub fn program_of(alloc: Global, uri: &str) -> Result<Option<String>, Memory> {
    match exchanged(alloc, uri, "/proof", "/program")? {
        Some(name) => Ok(Some(name)),
        None => exchanged(alloc, uri, ".proof", ".spl"),
    }
}

/// The file of the proof that belongs to the program in this file, where one may be named so.
pub fn proof_of(alloc: Global, uri: &str) -> Result<Option<String>, Memory> {
    match exchanged(alloc, uri, "/program", "/proof")? {
        Some(name) => Ok(Some(name)),
        None => exchanged(alloc, uri, ".spl", ".proof"),
    }
}
