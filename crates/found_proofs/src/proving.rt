//! The proof of some goals that stand together in a text: a search for lemmas from which they follow, and the least proof by these.

use crate::attempts::Attempt;
use crate::candidates::Candidate;
use crate::choosing::{chosen, known_candidates};
use crate::claims::Claim;
use crate::equations::push_equations;
use crate::ground::Ground;
use crate::naming::Naming;
use crate::shortening::least_needs;
use crate::steps::Citable;
use crate::subject::Subject;
pub(crate) use crate::writing::Proof;
use crate::writing::written;
use clause_texts::{ClauseFault, ClauseWriter};
use control_cubes::{Cube, CubeFault};
use invariant_search::{Observer, Outcome, Run, Search, Why};
use st_form::Form;
use st_memory::Memory;
use std::alloc::Global;

/// Which part of the queries is kept for the text when lemmas are looked for: one in so many.
pub(crate) const KEPT: u64 = 8;

/// What came of some goals.
#[derive(Drop)]
pub(crate) enum Tried {
    Proved(Proof),
    /// The goal with this number is false at the end of a run.
    Refuted(usize, Run),
    /// Nothing is known of the goal with this number; with the states that were left, as a formula, if there were some.
    Unknown(usize, Why, Option<Vec<u8>>),
}

/// What came of some goals, and how many queries it took.
#[derive(Drop)]
pub(crate) struct Effort {
    pub(crate) tried: Tried,
    pub(crate) queries: u64,
}

/// The states of a cube as a formula, where they can be said.
fn left_text(
    alloc: Global,
    writer: &ClauseWriter<'_>,
    left: Option<(Cube, u32)>,
) -> Result<Option<Vec<u8>>, Memory> {
    let Some((cube, _)) = left else {
        return Ok(None);
    };
    match writer.said(alloc, &cube) {
        Ok(phrase) => Ok(Some(phrase.text)),
        Err(ClauseFault::Unsaid) => Ok(None),
        Err(ClauseFault::Memory) => Err(Memory),
    }
}

/// Looks for lemmas from which the goal with a number follows; `None` where they are found.
fn sought_one<O: Observer>(
    alloc: Global,
    search: &mut Search<'_>,
    writer: &ClauseWriter<'_>,
    number: usize,
    goal: &Form,
    observer: &O,
) -> Result<Option<Tried>, CubeFault> {
    match search.ic3(alloc, goal, observer)? {
        Outcome::Inductive => {
            search.drop_bounded();
            Ok(None)
        }
        Outcome::Refuted(run) => Ok(Some(Tried::Refuted(number, run))),
        Outcome::Unknown { why, left } => {
            let left = left_text(alloc, writer, left)?;
            Ok(Some(Tried::Unknown(number, why, left)))
        }
    }
}

/// Looks for lemmas from which each goal follows; `None` where they are found.
fn sought<O: Observer>(
    alloc: Global,
    search: &mut Search<'_>,
    writer: &ClauseWriter<'_>,
    goals: &[Form],
    observer: &O,
) -> Result<Option<Tried>, CubeFault> {
    for (number, goal) in goals.iter().enumerate() {
        let tried = sought_one(alloc, search, writer, number, goal, observer)?;
        if tried.is_some() {
            return Ok(tried);
        }
    }
    Ok(None)
}

/// What a proof is made for: the program, how, behind which steps, and with how many queries.
#[derive(Clone, Copy)]
pub(crate) struct Task<'t> {
    pub(crate) subject: &'t Subject,
    pub(crate) attempt: Attempt,
    pub(crate) known: &'t [Citable],
    pub(crate) budget: u64,
}

/// What is given for a task: the known claims, and equations where the attempt has them.
pub(crate) fn given_candidates(alloc: Global, task: Task<'_>) -> Result<Vec<Candidate>, Memory> {
    let mut given = known_candidates(alloc, task.known)?;
    if task.attempt.equations {
        push_equations(alloc, task.subject, &mut given)?;
    }
    Ok(given)
}

/// Tells a search what it may speak of, and what is given.
pub(crate) fn prepare(
    alloc: Global,
    search: &mut Search<'_>,
    goals: &[Form],
    given: &[Candidate],
) -> Result<(), CubeFault> {
    search.use_rows_of(alloc, goals)?;
    for candidate in given {
        search.give(alloc, candidate.form.copy(alloc)?)?;
    }
    Ok(())
}

/// A search for a task, and what is given. It may ask all questions but those that are kept for the text.
pub(crate) fn begun<'t>(
    alloc: Global,
    task: Task<'t>,
    goals: &[Form],
) -> Result<(Search<'t>, Vec<Candidate>), CubeFault> {
    let given = given_candidates(alloc, task)?;
    let most = task.budget.saturating_sub(task.budget / KEPT);
    let mut search = task.subject.search(alloc, most)?;
    prepare(alloc, &mut search, goals, &given)?;
    if task.attempt.explores {
        search.explore(alloc)?;
    }
    Ok((search, given))
}

/// The least proof of claims by candidates; `None` where it isn't known that they suffice.
fn least_proof(
    alloc: Global,
    task: Task<'_>,
    ground: &mut Ground<'_>,
    writer: &ClauseWriter<'_>,
    claims: &[Claim],
    naming: &mut Naming,
) -> Result<Option<Proof>, CubeFault> {
    match least_needs(alloc, ground, claims)? {
        Some(needs) => Ok(Some(written(alloc, writer, ground, &needs, task.known, naming)?)),
        None => Ok(None),
    }
}

/// What came of goals that were found to follow from lemmas.
fn tried_with(proof: Option<Proof>, is_spent: bool) -> Tried {
    match proof {
        Some(proof) => Tried::Proved(proof),
        None if is_spent => Tried::Unknown(0, Why::Budget, None),
        None => Tried::Unknown(0, Why::Wide, None),
    }
}

/// The least proof of claims that follow from what a search has found. What is kept for the text is for the look at what is needed, since
/// the search itself may ask until its own share is spent; and what both leave is for the proof.
pub(crate) fn finished(
    alloc: Global,
    task: Task<'_>,
    search: &mut Search<'_>,
    writer: &ClauseWriter<'_>,
    given: Vec<Candidate>,
    claims: &[Claim],
    naming: &mut Naming,
) -> Result<Effort, CubeFault> {
    let kept = task.budget / KEPT;
    let (candidates, unasked) = chosen(alloc, task, search, writer, given, claims, kept)?;
    let left = unasked.saturating_add(search.give_back());
    let mut ground = Ground::new(alloc, task.subject, candidates, left)?;
    let proof = least_proof(alloc, task, &mut ground, writer, claims, naming)?;
    let left = ground.give_back();
    Ok(Effort {
        tried: tried_with(proof, left == 0),
        queries: task.budget.saturating_sub(left),
    })
}

/// How many queries of a task were asked, where its search ends with them.
fn asked(task: Task<'_>, search: &mut Search<'_>) -> u64 {
    let left = search.give_back().saturating_add(task.budget / KEPT);
    task.budget.saturating_sub(left)
}

/// The goals as claims.
fn claims_of(alloc: Global, goals: &[Form]) -> Result<Vec<Claim>, Memory> {
    let mut claims = Vec::with_capacity(alloc, goals.len())?;
    for goal in goals {
        claims.push(Claim::Invariance(goal.copy(alloc)?))?;
    }
    Ok(claims)
}

/// Looks for lemmas from which the goals follow, and then for the least proof.
fn proved<O: Observer>(
    alloc: Global,
    task: Task<'_>,
    search: &mut Search<'_>,
    given: Vec<Candidate>,
    goals: &[Form],
    claims: &[Claim],
    naming: &mut Naming,
    observer: &O,
) -> Result<Effort, CubeFault> {
    let writer = task.subject.writer(alloc, search)?;
    match sought(alloc, search, &writer, goals, observer)? {
        Some(tried) => Ok(Effort {
            tried,
            queries: asked(task, search),
        }),
        None => finished(alloc, task, search, &writer, given, claims, naming),
    }
}

/// Tries to prove goals of invariance.
pub(crate) fn prove<O: Observer>(
    alloc: Global,
    task: Task<'_>,
    goals: &[Form],
    naming: &mut Naming,
    observer: &O,
) -> Result<Effort, CubeFault> {
    let claims = claims_of(alloc, goals)?;
    let (mut search, given) = begun(alloc, task, goals)?;
    proved(
        alloc,
        task,
        &mut search,
        given,
        goals,
        &claims,
        naming,
        observer,
    )
}
