//! A text of requests as a script with what is wanted of each of its steps.

ghost use Rattle.std.specs.Prelude.{◌<◌, ◌^◌, length};

use crate::outline::{Asks, Extent, step_extents};
use crate::responses::{Leading, read_leading};
use crate::waits::{Staying, read_staying};
use proof_script::{ScriptFault, read_script};
use st_memory::Memory;
use st_program::NameTable;
use std::alloc::Global;
use temporal_goals::Script;
use transition_system::Fts;

/// What is wanted of a step.
#[derive(Drop)]
pub enum Wanted {
    /// Nothing: it is the next step of the script, and is given.
    Nothing,
    /// A proof of the invariance that is the next step of the script.
    Proof,
    /// A chain for a response, which the script doesn't have.
    Chain(Leading),
    /// Levels for a waiting-for, which the script doesn't have.
    Levels(Staying),
}

/// What a text asks for: the script of its steps but those that ask for a chain or for levels, and all steps in order, each with where
/// it stands and what is wanted of it.
#[derive(Drop)]
pub struct Request<'a> {
    pub script: Script,
    pub steps: Vec<(Extent<'a>, Wanted)>,
}

/// The longest text that is read, in bytes.
const LONGEST: usize = u32::MAX as usize;

/// Puts blanks in the place of the bytes from one place to before another.
fn blank(bytes: &mut [u8], from: usize, to: usize) {
    for place in from..to {
        if let Some(byte) = bytes.get_mut(place) {
            *byte = b' ';
        }
    }
}

/// Whether a step isn't one that scripts have.
fn is_apart(step: &Extent<'_>) -> bool {
    match step.asks {
        Asks::Nothing | Asks::Invariance => false,
        Asks::Chain | Asks::Levels => true,
    }
}

/// The text with blanks in the place of the steps that ask for a chain or for levels, so that every other step keeps its place.
fn without_apart(alloc: Global, text: &[u8], steps: &[Extent<'_>]) -> Result<Vec<u8>, Memory> {
    let mut out = Vec::from_slice(alloc, text)?;
    for step in steps {
        if is_apart(step) {
            blank(&mut out, step.start, step.end);
        }
    }
    Ok(out)
}

/// A text of requests as `step` may read it up to a place at which it has a fault: with blanks in the place of each step that asks
/// for a chain or for levels, but of the one that has this place. So every other step keeps its place, and the first fault is the same.
pub fn script_around(alloc: Global, text: &[u8], place: u64) -> Result<Vec<u8>, Memory> {
    let mut out = Vec::from_slice(alloc, text)?;
    let steps = step_extents(alloc, text)?;
    for step in &steps {
        if is_apart(step) && !step.has(place as usize) {
            blank(&mut out, step.start, step.end);
        }
    }
    Ok(out)
}

/// What is wanted of a step.
fn wish(alloc: Global, names: &NameTable, step: &Extent<'_>) -> Result<Wanted, ScriptFault> {
    match step.asks {
        Asks::Nothing => Ok(Wanted::Nothing),
        Asks::Invariance => Ok(Wanted::Proof),
        Asks::Chain => {
            let mut tokens = step.tokens;
            Ok(Wanted::Chain(read_leading(alloc, names, &mut tokens)?))
        }
        Asks::Levels => {
            let mut tokens = step.tokens;
            Ok(Wanted::Levels(read_staying(alloc, names, &mut tokens)?))
        }
    }
}

/// Reads what a text asks for, over the names of a program and its transitions: a script in which an invariance and a waiting-for
/// may have no rule, and a response and a waiting-for may be `by find`. The fault is the first of the steps that scripts have, and else the first of the others.
pub fn read_request<'a>(
    alloc: Global,
    text: &'a [u8],
    names: &NameTable,
    fts: &Fts,
) -> Result<Request<'a>, ScriptFault> {
    if text.len() >= LONGEST {
        return Err(ScriptFault::Memory);
    }
    let extents = step_extents(alloc, text)?;
    let readable = without_apart(alloc, text, &extents)?;
    if readable.len() >= LONGEST {
        return Err(ScriptFault::Memory);
    }
    let script = read_script(alloc, &readable, names, fts)?;
    let mut steps = Vec::with_capacity(alloc, extents.len())?;
    for extent in extents {
        let wanted = wish(alloc, names, &extent)?;
        steps.push((extent, wanted))?;
    }
    Ok(Request { script, steps })
}
