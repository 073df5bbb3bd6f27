//! Names for found steps.

use st_memory::Memory;
use std::alloc::Global;
use temporal_goals::Step;

/// The names that a text has, and how many were tried.
#[derive(Drop)]
pub(crate) struct Naming {
    taken: Vec<String>,
    count: u64,
}

impl Naming {
    /// The naming of steps that stand among these.
    pub(crate) fn among(alloc: Global, steps: &[Step]) -> Result<Naming, Memory> {
        let mut taken = Vec::with_capacity(alloc, steps.len())?;
        for step in steps {
            taken.push(step.name.clone()?)?;
        }
        Ok(Naming { taken, count: 0 })
    }

    /// The next of `aux1`, `aux2` and so on that no step of the text has.
    pub(crate) fn next(&mut self, alloc: Global) -> Result<String, Memory> {
        for _ in 0..self.taken.len() {
            self.count = self.count.saturating_add(1);
            let number = self.count;
            let name = format!(in alloc; "aux{number}")?;
            if !self.taken.contains(&name) {
                return Ok(name);
            }
        }
        self.count = self.count.saturating_add(1);
        let number = self.count;
        Ok(format!(in alloc; "aux{number}")?)
    }
}
