//! The text of a proof: a step for each group of lemmas, which cites the steps in front of it, and how each goal is shown.

use crate::candidates::Candidate;
use crate::ground::{Ground, Needs};
use crate::joining::joined;
use crate::naming::Naming;
use crate::steps::{
    Citable, citation, cited_steps, joint_claim, layered, step_text, uses_of_layer,
};
use clause_texts::ClauseWriter;
use control_cubes::CubeFault;
use st_memory::Memory;
use std::alloc::Global;

/// How a goal is shown: what stands behind its claim.
#[derive(Drop)]
pub(crate) struct Ending {
    pub(crate) by_true: bool,
    pub(crate) citation: Vec<u8>,
}

/// A proof of some goals.
#[derive(Drop)]
pub(crate) struct Proof {
    /// The steps in front of them.
    pub(crate) text: Vec<u8>,
    /// What these claim, by name.
    pub(crate) steps: Vec<Citable>,
    /// How each goal is shown.
    pub(crate) endings: Vec<Ending>,
}

/// The steps that are written so far behind the known ones.
#[derive(Drop)]
struct Writing<'w> {
    candidates: &'w [Candidate],
    needs: &'w Needs,
    text: Vec<u8>,
    /// The known steps, and those that are written.
    steps: Vec<Citable>,
    /// Of each candidate the step in which it stands.
    homes: Vec<Option<usize>>,
}

impl<'w> Writing<'w> {
    fn new(
        alloc: Global,
        candidates: &'w [Candidate],
        needs: &'w Needs,
        known: &[Citable],
    ) -> Result<Writing<'w>, Memory> {
        let homes = vec![in alloc; None; candidates.len()]?;
        Ok(Writing {
            candidates,
            needs,
            text: Vec::new(alloc),
            steps: copied(alloc, known)?,
            homes,
        })
    }

    /// The steps in which candidates stand behind `using`.
    fn citation(&self, alloc: Global, uses: &[usize]) -> Result<Vec<u8>, Memory> {
        let cited = cited_steps(alloc, self.candidates, &self.homes, uses)?;
        citation(alloc, &self.steps, &cited)
    }

    /// Writes down that candidates stand in the next step.
    fn settle(&mut self, group: &[usize]) {
        let step = self.steps.len();
        for place in group {
            if let Some(home) = self.homes.get_mut(*place) {
                *home = Some(step);
            }
        }
    }

    /// Takes a step that claims all candidates of a group together.
    fn push_step(&mut self, alloc: Global, group: &[usize], name: String) -> Result<(), Memory> {
        self.settle(group);
        self.steps.push(Citable {
            name,
            claim: joint_claim(alloc, self.candidates, group)?,
        })?;
        Ok(())
    }

    /// Writes the step of a group.
    fn write(
        &mut self,
        alloc: Global,
        writer: &ClauseWriter<'_>,
        group: &[usize],
        name: &str,
    ) -> Result<(), Memory> {
        let uses = uses_of_layer(alloc, self.needs, group)?;
        let citation = self.citation(alloc, &uses)?;
        let step = step_text(alloc, writer, self.candidates, group, name, citation)?;
        self.text.extend_from_slice(&step)?;
        Ok(())
    }

    /// Writes the step of a group with the next name.
    fn write_next(
        &mut self,
        alloc: Global,
        writer: &ClauseWriter<'_>,
        group: &[usize],
        naming: &mut Naming,
    ) -> Result<(), Memory> {
        let name = naming.next(alloc)?;
        self.write(alloc, writer, group, name.as_str())?;
        self.push_step(alloc, group, name)
    }

    /// How each goal is shown by the steps.
    fn endings(&self, alloc: Global) -> Result<Vec<Ending>, Memory> {
        let mut out = Vec::with_capacity(alloc, self.needs.goals.len())?;
        for shown in &self.needs.goals {
            out.push(Ending {
                by_true: shown.by_true,
                citation: self.citation(alloc, &shown.uses)?,
            })?;
        }
        Ok(out)
    }
}

/// Equal steps.
fn copied(alloc: Global, steps: &[Citable]) -> Result<Vec<Citable>, Memory> {
    let mut out = Vec::with_capacity(alloc, steps.len())?;
    for step in steps {
        out.push(Citable {
            name: step.name.clone()?,
            claim: step.claim.copy(alloc)?,
        })?;
    }
    Ok(out)
}

/// The steps behind the first ones.
fn behind(alloc: Global, steps: Vec<Citable>, first: usize) -> Result<Vec<Citable>, Memory> {
    let mut out = Vec::new(alloc);
    for (number, step) in steps.into_iter().enumerate() {
        if number >= first {
            out.push(step)?;
        }
    }
    Ok(out)
}

/// The proof whose steps are these groups.
fn written_groups(
    alloc: Global,
    writer: &ClauseWriter<'_>,
    mut writing: Writing<'_>,
    groups: &[Vec<usize>],
    naming: &mut Naming,
) -> Result<Proof, Memory> {
    let known = writing.steps.len();
    for group in groups {
        writing.write_next(alloc, writer, group, naming)?;
    }
    let endings = writing.endings(alloc)?;
    Ok(Proof {
        text: writing.text,
        steps: behind(alloc, writing.steps, known)?,
        endings,
    })
}

/// The proof that uses what is needed, behind known steps.
pub(crate) fn written(
    alloc: Global,
    writer: &ClauseWriter<'_>,
    ground: &mut Ground<'_>,
    needs: &Needs,
    known: &[Citable],
    naming: &mut Naming,
) -> Result<Proof, CubeFault> {
    let layers = layered(alloc, &ground.candidates, needs)?;
    let groups = joined(alloc, ground, needs, layers)?;
    let writing = Writing::new(alloc, &ground.candidates, needs, known)?;
    Ok(written_groups(alloc, writer, writing, &groups, naming)?)
}
