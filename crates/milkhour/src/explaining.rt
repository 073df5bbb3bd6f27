//! What the pages say of a word.

use crate::streams::write_result;
use crate::trouble::Trouble;
use milkhour_run::Status;
use page_words::{known_words, nearest_word, said_of};
use std::alloc::{AllocError, Global};
use std::rt::Runtime;

fn list_of_words(alloc: Global) -> Result<String, AllocError> {
    let mut out = String::from_str(
        alloc,
        "A word to be explained is a status, from 0 to 13, or one of these:\n",
    )?;
    for word in known_words(alloc)? {
        out.push_str("  ")?;
        out.push_str(word)?;
        out.push_str("\n")?;
    }
    Ok(out)
}

/// The refusal of a word that no page speaks of.
fn unknown(alloc: Global, word: &str) -> Result<Trouble, AllocError> {
    let text = match nearest_word(alloc, word)? {
        Some(near) => format!(in alloc; "no page speaks of '{word}'; did you mean '{near}'?")?,
        None => format!(in alloc; "no page speaks of '{word}'; milkhour explain lists the words")?,
    };
    Ok(Trouble::Words(text))
}

/// Prints what the pages say of a word, or which words they speak of.
pub fn explain<R: Runtime + AllocGlobal>(rt: &R, word: Option<&str>) -> Result<u8, Trouble> {
    let alloc = rt.alloc();
    let text = match word {
        None => list_of_words(alloc)?,
        Some(word) => match said_of(alloc, word)? {
            Some(text) => text,
            None => return Err(unknown(alloc, word)?),
        },
    };
    write_result(rt, None, text.as_bytes())?;
    Ok(Status::Proved.number())
}
