//! The way through a text of requests: goals that stand together are proved together, behind the steps in front of them.

ghost use Rattle.std.specs.Prelude.{◌≤◌, IfOk};

use crate::answers::{Failing, Found, Missing, Proposal, Unfound};
use crate::attempts::Attempt;
use crate::insertions::{Insertion, between, ending, inserted, place_above, starts_line};
use crate::naming::Naming;
use crate::proving::{Proof, Task, Tried, prove};
use crate::schedules::schedule_text;
use crate::steps::Citable;
use crate::subject::Subject;
use control_cubes::CubeFault;
use find_requests::{Extent, Request, Wanted};
use invariant_search::{Observer, Run, Why};
use st_form::Form;
use st_memory::Memory;
use std::alloc::Global;
use std::mem;
use step_report::push_text;
use temporal_goals::{Goal, Step};

/// The goals that wait for their proofs, where they stand, and what they are called.
#[derive(Drop)]
struct Waiting<'t> {
    extents: Vec<Extent<'t>>,
    names: Vec<String>,
    claims: Vec<Form>,
}

/// How far a text is done.
#[derive(Drop)]
pub(crate) struct Progress<'s, 't> {
    pub(crate) subject: &'s Subject,
    pub(crate) text: &'t [u8],
    pub(crate) attempt: Attempt,
    /// How many queries may be asked still.
    pub(crate) left: u64,
    pub(crate) known: Vec<Citable>,
    insertions: Vec<Insertion>,
    pub(crate) naming: Naming,
    /// The byte behind the last step that is done.
    behind: usize,
    waiting: Waiting<'t>,
}

pub(crate) fn unfound(why: Why) -> Unfound {
    match why {
        Why::Budget => Unfound::Budget,
        Why::Wide => Unfound::Wide,
        Why::Levels => Unfound::Levels,
    }
}

/// No goals.
fn nothing_waits<'t>(alloc: Global) -> Waiting<'t> {
    Waiting {
        extents: Vec::new(alloc),
        names: Vec::new(alloc),
        claims: Vec::new(alloc),
    }
}

/// Where the first of the goals begins.
fn first_start(extents: &[Extent<'_>]) -> Option<usize> {
    match extents.first() {
        Some(first) => Some(first.start),
        None => None,
    }
}

impl<'s, 't> Progress<'s, 't> {
    fn new(
        alloc: Global,
        subject: &'s Subject,
        text: &'t [u8],
        steps: &[Step],
        attempt: Attempt,
        budget: u64,
    ) -> Result<Progress<'s, 't>, Memory> {
        Ok(Progress {
            subject,
            text,
            attempt,
            left: budget,
            known: Vec::new(alloc),
            insertions: Vec::new(alloc),
            naming: Naming::among(alloc, steps)?,
            behind: 0,
            waiting: nothing_waits(alloc),
        })
    }

    /// The text up to a place, with what was found.
    fn text_to(&self, alloc: Global, end: usize) -> Result<Vec<u8>, Memory> {
        inserted(alloc, self.text, end, &self.insertions)
    }

    /// Takes an invariance that needs no proof for one that can be cited.
    fn know(&mut self, alloc: Global, step: &Step) -> Result<(), Memory> {
        if let Goal::Invariant(claim) = &step.goal {
            self.known.push(Citable {
                name: step.name.clone()?,
                claim: claim.copy(alloc)?,
            })?;
        }
        Ok(())
    }

    /// Puts a goal behind those that wait.
    fn wait(&mut self, alloc: Global, extent: Extent<'t>, step: &Step) -> Result<(), Memory> {
        if let Goal::Invariant(claim) = &step.goal {
            self.waiting.extents.push(extent)?;
            self.waiting.names.push(step.name.clone()?)?;
            self.waiting.claims.push(claim.copy(alloc)?)?;
        }
        Ok(())
    }

    /// Puts found steps in front of a step that begins at a place.
    fn insert_steps(&mut self, alloc: Global, steps: &[u8], start: usize) -> Result<(), Memory> {
        if steps.is_empty() {
            return Ok(());
        }
        let place = place_above(self.text, self.behind, start);
        let mut text = Vec::new(alloc);
        if !starts_line(self.text, place) {
            push_text(&mut text, b"\n")?;
        }
        push_text(&mut text, steps)?;
        self.insertions.push(Insertion {
            from: place,
            to: place,
            text,
        })?;
        Ok(())
    }

    /// Takes a proof of the goals that wait into the text.
    fn take(&mut self, alloc: Global, proof: Proof) -> Result<(), Memory> {
        if let Some(start) = first_start(&self.waiting.extents) {
            self.insert_steps(alloc, &proof.text, start)?;
        }
        let mut steps = proof.steps;
        self.known.append(&mut steps)?;
        let done = mem::replace(&mut self.waiting, nothing_waits(alloc));
        for (extent, shown) in done.extents.iter().zip(&proof.endings) {
            let text = ending(
                alloc,
                self.text,
                extent.body,
                shown.by_true,
                &shown.citation,
            )?;
            self.insertions.push(Insertion {
                from: extent.body,
                to: extent.body,
                text,
            })?;
        }
        for (name, claim) in done.names.into_iter().zip(done.claims) {
            self.known.push(Citable { name, claim })?;
        }
        Ok(())
    }

    /// The name of a goal that waits.
    fn name_of(&self, alloc: Global, goal: usize) -> Result<String, Memory> {
        match self.waiting.names.get(goal) {
            Some(name) => Ok(name.clone()?),
            None => Ok(String::new(alloc)),
        }
    }

    /// The answer that a goal that waits is false at the end of a run.
    fn failing(&self, alloc: Global, goal: usize, run: &Run) -> Result<Found, Memory> {
        let proof = match self.waiting.extents.get(goal) {
            Some(extent) => Vec::from_slice(alloc, between(self.text, extent.start, extent.end))?,
            None => Vec::new(alloc),
        };
        Ok(Found::False(Failing {
            goal: self.name_of(alloc, goal)?,
            proof,
            schedule: schedule_text(alloc, self.subject, run)?,
        }))
    }

    /// The answer that nothing is known of a goal that waits.
    fn missing(
        &self,
        alloc: Global,
        goal: usize,
        why: Unfound,
        left: Option<Vec<u8>>,
    ) -> Result<Found, Memory> {
        Ok(Found::NotFound(Missing {
            goal: self.name_of(alloc, goal)?,
            why,
            left,
            so_far: self.text_to(alloc, self.behind)?,
        }))
    }

    /// Takes in what came of the goals that wait; an answer where they aren't proved.
    fn conclude(&mut self, alloc: Global, tried: Tried) -> Result<Option<Found>, Memory> {
        match tried {
            Tried::Proved(proof) => {
                self.take(alloc, proof)?;
                Ok(None)
            }
            Tried::Refuted(goal, run) => Ok(Some(self.failing(alloc, goal, &run)?)),
            Tried::Unknown(goal, why, left) => {
                Ok(Some(self.missing(alloc, goal, unfound(why), left)?))
            }
        }
    }

    /// Proves the goals that wait; an answer where that fails. Where a number grows too large it isn't known how many queries were
    /// asked, so all that were allowed count.
    fn settle<O: Observer>(
        &mut self,
        alloc: Global,
        observer: &O,
    ) -> Result<Option<Found>, Memory> {
        if self.waiting.claims.is_empty() {
            return Ok(None);
        }
        let task = Task {
            subject: self.subject,
            attempt: self.attempt,
            known: &self.known,
            budget: self.left,
        };
        match prove(
            alloc,
            task,
            &self.waiting.claims,
            &mut self.naming,
            observer,
        ) {
            Ok(effort) => {
                self.left = self.left.saturating_sub(effort.queries);
                self.conclude(alloc, effort.tried)
            }
            Err(CubeFault::TooLarge) => {
                self.left = 0;
                Ok(Some(self.missing(alloc, 0, Unfound::Wide, None)?))
            }
            Err(CubeFault::Memory) => Err(Memory),
        }
    }

    /// Puts a found rule in the place of what stands in a step from a byte on.
    pub(crate) fn take_rule(
        &mut self,
        alloc: Global,
        extent: Extent<'t>,
        from: usize,
        rule: Vec<u8>,
        proof: Proof,
    ) -> Result<(), Memory> {
        self.insert_steps(alloc, &proof.text, extent.start)?;
        let mut steps = proof.steps;
        self.known.append(&mut steps)?;
        let mut text = rule;
        if let Some(shown) = proof.endings.first() {
            let end = ending(alloc, &text, text.len(), false, &shown.citation)?;
            push_text(&mut text, &end)?;
        }
        self.insertions.push(Insertion {
            from,
            to: extent.body,
            text,
        })?;
        self.behind = extent.end;
        Ok(())
    }

    /// The answer that nothing is known of the goal with a name that is asked for next.
    pub(crate) fn unknown(
        &self,
        alloc: Global,
        name: &str,
        why: Unfound,
        left: Option<Vec<u8>>,
    ) -> Result<Found, Memory> {
        Ok(Found::NotFound(Missing {
            goal: String::from_str(alloc, name)?,
            why,
            left,
            so_far: self.text_to(alloc, self.behind)?,
        }))
    }

    /// Goes over a step that has its own place in the script, or asks for a chain or for levels.
    fn pass<O: Observer>(
        &mut self,
        alloc: Global,
        extent: Extent<'t>,
        wanted: &Wanted,
        step: Option<&Step>,
        observer: &O,
    ) -> Result<Option<Found>, Memory> {
        match (wanted, step) {
            (Wanted::Proof, Some(step)) => {
                self.wait(alloc, extent, step)?;
                Ok(None)
            }
            (Wanted::Nothing, Some(step)) => {
                let answer = self.settle(alloc, observer)?;
                self.know(alloc, step)?;
                self.behind = extent.end;
                Ok(answer)
            }
            (Wanted::Chain(leading), _) => {
                if let Some(answer) = self.settle(alloc, observer)? {
                    return Ok(Some(answer));
                }
                self.chain(alloc, extent, leading)
            }
            (Wanted::Levels(staying), _) => {
                if let Some(answer) = self.settle(alloc, observer)? {
                    return Ok(Some(answer));
                }
                self.levels(alloc, extent, staying, observer)
            }
            (Wanted::Nothing | Wanted::Proof, None) => Ok(None),
        }
    }
}

/// Whether a step stands in the script.
fn is_scripted(wanted: &Wanted) -> bool {
    match wanted {
        Wanted::Nothing | Wanted::Proof => true,
        Wanted::Chain(_) | Wanted::Levels(_) => false,
    }
}

/// The name of the first goal that is asked for.
fn first_goal(alloc: Global, request: &Request<'_>) -> Result<String, Memory> {
    let mut next = 0usize;
    for (_, wanted) in &request.steps {
        match wanted {
            Wanted::Nothing => next = next.saturating_add(1),
            Wanted::Chain(leading) => return Ok(leading.name.clone()?),
            Wanted::Levels(staying) => return Ok(staying.name.clone()?),
            Wanted::Proof => {
                return match request.script.steps.get(next) {
                    Some(step) => Ok(step.name.clone()?),
                    None => Ok(String::new(alloc)),
                };
            }
        }
    }
    Ok(String::new(alloc))
}

/// The answer where no attempt is made.
pub(crate) fn unmade(alloc: Global, request: &Request<'_>) -> Result<Found, Memory> {
    Ok(Found::NotFound(Missing {
        goal: first_goal(alloc, request)?,
        why: Unfound::Budget,
        left: None,
        so_far: Vec::new(alloc),
    }))
}

/// Goes through the steps of a text; an answer where a goal isn't proved.
fn through<'t, O: Observer>(
    alloc: Global,
    progress: &mut Progress<'_, 't>,
    request: &Request<'t>,
    observer: &O,
) -> Result<Option<Found>, Memory> {
    let steps = request.script.steps.as_slice();
    let mut next = 0usize;
    for (extent, wanted) in &request.steps {
        let answer = progress.pass(alloc, *extent, wanted, steps.get(next), observer)?;
        if answer.is_some() {
            return Ok(answer);
        }
        if is_scripted(wanted) {
            next = next.saturating_add(1);
        }
    }
    progress.settle(alloc, observer)
}

/// The text with all that was found.
fn proposal(
    alloc: Global,
    progress: &Progress<'_, '_>,
    request: &Request<'_>,
) -> Result<Found, Memory> {
    Ok(Found::Proof(Proposal {
        goal: first_goal(alloc, request)?,
        text: progress.text_to(alloc, progress.text.len())?,
    }))
}

/// What comes of the goals of a text.
fn outcome<'t, O: Observer>(
    alloc: Global,
    progress: &mut Progress<'_, 't>,
    request: &Request<'t>,
    observer: &O,
) -> Result<Found, Memory> {
    match through(alloc, progress, request, observer)? {
        Some(found) => Ok(found),
        None => proposal(alloc, progress, request),
    }
}

/// What an attempt finds of the goals of a text, with so many queries; and how many it asked.
pub(crate) fn progressed<'t, O: Observer>(
    alloc: Global,
    subject: &Subject,
    text: &'t [u8],
    request: &Request<'t>,
    attempt: Attempt,
    budget: u64,
    observer: &O,
) -> Result<(Found, u64), Memory>
    ensures { IfOk result (λ answer. answer.1 ≤ budget) }
{
    let steps = request.script.steps.as_slice();
    let mut progress = Progress::new(alloc, subject, text, steps, attempt, budget)?;
    let found = outcome(alloc, &mut progress, request, observer)?;
    Ok((found, budget.saturating_sub(progress.left)))
}
