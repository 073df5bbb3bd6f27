//! The facts of a program as proof text, in two ways: a step for each variable, which is shorter to read and to cite, and one step
//! for all, which is kept by each mode also where the values of one variable come from another.

use crate::groups::groups;
use crate::sentences::{step_together, steps_apart};
use crate::subject::{Subject, read_subject};
use constant_facts::{Fact, FactFault, find};
use st_memory::Memory;
use std::alloc::Global;

/// Lines with one step each, or nothing where no fact is found.
#[derive(Drop)]
pub struct FactTexts {
    /// A step for each variable.
    pub apart: Vec<u8>,
    /// One step for all.
    pub together: Vec<u8>,
}

/// The facts at the locations that have labels.
fn facts_of(alloc: Global, subject: &Subject) -> Result<Vec<Fact>, Memory> {
    let places = subject.labelled(alloc)?;
    match find(alloc, &subject.system, &subject.components, &places) {
        Ok(facts) => Ok(facts),
        Err(FactFault::Many) => Ok(Vec::new(alloc)),
        Err(FactFault::Memory) => Err(Memory),
    }
}

/// The facts of the program that a text spells; none where the text is refused, or there are too many values to try.
pub fn fact_texts(alloc: Global, program: &[u8]) -> Result<FactTexts, Memory> {
    let Some(subject) = read_subject(alloc, program)? else {
        return Ok(FactTexts {
            apart: Vec::new(alloc),
            together: Vec::new(alloc),
        });
    };
    let facts = facts_of(alloc, &subject)?;
    let groups = groups(alloc, &facts)?;
    Ok(FactTexts {
        apart: steps_apart(alloc, &subject, &groups)?,
        together: step_together(alloc, &subject, &groups)?,
    })
}
