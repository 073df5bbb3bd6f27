//! What is known of the steps of proofs: how many of their conditions failed when their conditions were decided last.

use proof_reports::StepReport;
use st_memory::Memory;
use std::alloc::Global;

/// The steps of the proof in a file.
#[derive(Drop)]
struct Decided {
    uri: String,
    steps: Vec<StepReport>,
}

/// What became of the steps of all proofs that were opened or saved.
#[derive(Drop)]
pub struct Verdicts {
    decided: Vec<Decided>,
}

impl Verdicts {
    pub fn new(alloc: Global) -> Verdicts {
        Verdicts {
            decided: Vec::new(alloc),
        }
    }

    /// Forgets the proof in a file.
    pub fn forget(&mut self, uri: &str) {
        self.decided.retain(|it| it.uri.as_str() != uri);
    }

    /// Holds the steps of the proof in a file, in place of those that were held before.
    pub fn put(&mut self, alloc: Global, uri: &str, steps: Vec<StepReport>) -> Result<(), Memory> {
        let name = String::from_str(alloc, uri)?;
        self.forget(uri);
        self.decided.push(Decided { uri: name, steps })?;
        Ok(())
    }

    /// What became of the step of this name of the proof in a file.
    pub fn of(&self, uri: &str, name: &[u8]) -> Option<&StepReport> {
        let decided = self.decided.iter().find(|it| it.uri.as_str() == uri)?;
        decided.steps.iter().find(|it| it.name.as_bytes() == name)
    }
}

/// What became of a step, in a sentence.
pub fn sentence(alloc: Global, step: &StepReport) -> Result<String, Memory> {
    let conditions = step.conditions;
    let thing = if conditions == 1 {
        "condition"
    } else {
        "conditions"
    };
    if step.failing == 0 {
        return Ok(format!(in alloc; "proved when last saved: {conditions} {thing}")?);
    }
    let ending = if step.failing == 1 { "fails" } else { "fail" };
    Ok(format!(in alloc;
        "not proved when last saved: {} of {conditions} {thing} {ending}",
        step.failing
    )?)
}
