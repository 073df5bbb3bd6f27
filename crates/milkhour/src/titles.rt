//! What a page is called that shows a text as it is.

use crate::given::Given;
use std::alloc::{AllocError, Global};

/// The task, and what it is over: a proof over a program, or one file.
pub fn title_of(alloc: Global, given: &Given<'_>) -> Result<String, AllocError> {
    let task = given.task.name();
    let program = given.program.name;
    match &given.proof {
        Some(proof) if proof.name != program => {
            format!(in alloc; "{task}: {} over {program}", proof.name)
        }
        _ => format!(in alloc; "{task}: {program}"),
    }
}
