//! Which of several names a misspelt one was meant to be: the nearest by F. Damerau's distance (*A technique for computer
//! detection and correction of spelling errors*, 1964), as long as a third of its letters are right.

use st_memory::Memory;
use std::alloc::Global;
use strsim::damerau_levenshtein;

/// How far a name may be from the one that is meant; of two letters none is.
fn reach(word: &str) -> usize {
    word.len() / 3
}

/// How long a misspelt name may be: the table of distances has a row for each of its letters.
const LONGEST: usize = 64;

/// Twice the distance, and one more where the name isn't as long as the word: a letter is mistaken more often than forgotten, and of
/// numbered names, as `l1` and `l11` for `l12`, the one with as many digits is meant.
fn rank(alloc: Global, word: &str, name: &str) -> Result<usize, Memory> {
    let distance = damerau_levenshtein(alloc, word, name)?;
    if distance >= name.len() {
        return Ok(usize::MAX);
    }
    let other = usize::from(name.len() != word.len());
    Ok(distance.saturating_mul(2).saturating_add(other))
}

/// The nearest name, the first of several as near. A name that is longer by as much as the nearest is far isn't nearer, so no
/// table is made for it.
pub(crate) fn nearest<'a>(
    alloc: Global,
    word: &str,
    names: &[&'a str],
) -> Result<Option<&'a str>, Memory> {
    if LONGEST < word.len() {
        return Ok(None);
    }
    let mut found = None;
    let mut least = reach(word).saturating_mul(2).saturating_add(2);
    for name in names {
        if name.len() < word.len().saturating_add(least) {
            let rank = rank(alloc, word, name)?;
            if rank < least {
                least = rank;
                found = Some(*name);
            }
        }
    }
    Ok(found)
}

/// How many names are listed.
const LISTED: usize = 8;

/// What stands behind the first letter.
fn tail(word: &str) -> &[u8] {
    match word.as_bytes().split_first() {
        Some((_, tail)) => tail,
        None => b"".as_slice(),
    }
}

/// Names in a list, in which `..` stands for those past the eighth.
fn listed(alloc: Global, names: &[&str]) -> Result<String, Memory> {
    let mut out = String::new(alloc);
    for (index, name) in names.iter().enumerate() {
        if index < LISTED {
            let separator = if index == 0 { "" } else { ", " };
            let quoted = format!(in alloc; "{separator}`{name}`")?;
            out.push_str(&quoted)?;
        }
    }
    if LISTED < names.len() {
        out.push_str(" ..")?;
    }
    Ok(out)
}

/// Help for a label that a program doesn't have: those that are like it behind the first letter, or else all.
pub(crate) fn labels_like(
    alloc: Global,
    word: &str,
    labels: &[&str],
) -> Result<Option<String>, Memory> {
    let mut like = Vec::new(alloc);
    for label in labels {
        if tail(label) == tail(word) {
            like.push(*label)?;
        }
    }
    if !like.is_empty() {
        let listed = listed(alloc, &like)?;
        return Ok(Some(format!(in alloc; "labels like it: {listed}")?));
    }
    if labels.is_empty() {
        return Ok(None);
    }
    let listed = listed(alloc, labels)?;
    Ok(Some(format!(in alloc; "its labels are {listed}")?))
}
