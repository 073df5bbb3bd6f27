//! Waiting-fors: their levels are found as invariants beside a monitor, and then the least proof that they are some.

use crate::candidates::Candidate;
use crate::claims::Claim;
use crate::level_rules::rule_text;
use crate::naming::Naming;
use crate::proving::{KEPT, Proof, Task, Tried, finished, given_candidates, prepare};
use crate::subject::Subject;
use clause_texts::{ClauseFault, ClauseWriter};
use control_cubes::{Cube, CubeFault};
use find_requests::Staying;
use invariant_search::{ALWAYS, Machine, Observer, Run, Search, Why};
use st_form::Form;
use st_memory::Memory;
use std::alloc::Global;
use waiting_search::{Levels, Monitor, WaitingFor, Watched, lessened, watch};

/// What came of a waiting-for.
#[derive(Drop)]
pub(crate) enum Stayed {
    /// Its levels as a rule, and the proof that they meet its conditions.
    Levelled(Vec<u8>, Proof),
    /// It fails at the end of a run.
    Refuted(Run),
    /// Nothing is known of it; with the states that were left, as a formula, if there were some.
    Unknown(Why, Option<Vec<u8>>),
}

/// What came of a waiting-for, and how many queries it took.
#[derive(Drop)]
pub(crate) struct StayEffort {
    pub(crate) stayed: Stayed,
    pub(crate) queries: u64,
}

/// A waiting-for as it is searched for.
fn claim_of(staying: &Staying) -> WaitingFor<'_> {
    WaitingFor {
        start: &staying.start,
        forms: &staying.forms,
    }
}

/// The formulas whose comparisons levels may take: those of the claim, and the known ones.
fn spoken_of(alloc: Global, task: Task<'_>, staying: &Staying) -> Result<Vec<Form>, Memory> {
    let mut out = Vec::new(alloc);
    out.push(staying.start.copy(alloc)?)?;
    for form in &staying.forms {
        out.push(form.copy(alloc)?)?;
    }
    for step in task.known {
        out.push(step.claim.copy(alloc)?)?;
    }
    Ok(out)
}

/// A program, as it is searched.
fn machine_of(alloc: Global, subject: &Subject) -> Result<Machine<'_>, CubeFault> {
    Machine::of_program(
        alloc,
        &subject.program,
        &subject.system,
        &subject.components,
    )
}

/// What the search over the program and a monitor of a claim says, and how many of so many queries are left.
fn search_beside<O: Observer>(
    alloc: Global,
    task: Task<'_>,
    staying: &Staying,
    given: &[Candidate],
    most: u64,
    observer: &O,
    monitor: &Monitor,
) -> Result<(Watched, u64), CubeFault> {
    let claim = claim_of(staying);
    let program = machine_of(alloc, task.subject)?;
    let mut search = Search::over(alloc, monitor.machine(alloc, &program, claim)?, most)?;
    let spoken = spoken_of(alloc, task, staying)?;
    prepare(alloc, &mut search, &spoken, given)?;
    let watched = watch(alloc, &mut search, monitor, claim, observer)?;
    Ok((watched, search.give_back()))
}

/// The same, with the monitor made.
fn search_both<O: Observer>(
    alloc: Global,
    task: Task<'_>,
    staying: &Staying,
    given: &[Candidate],
    most: u64,
    observer: &O,
) -> Result<(Watched, u64), CubeFault> {
    let program = machine_of(alloc, task.subject)?;
    let monitor = Monitor::beside(alloc, &program, claim_of(staying))?;
    search_beside(alloc, task, staying, given, most, observer, &monitor)
}

/// A search over the program alone that knows what never is, and may ask so many queries.
fn informed<'t>(
    alloc: Global,
    task: Task<'t>,
    staying: &Staying,
    given: &[Candidate],
    always: Vec<Cube>,
    budget: u64,
) -> Result<Search<'t>, CubeFault> {
    let mut search = task.subject.search(alloc, budget)?;
    let spoken = spoken_of(alloc, task, staying)?;
    prepare(alloc, &mut search, &spoken, given)?;
    for cube in always {
        search.add(alloc, cube, ALWAYS)?;
    }
    Ok(search)
}

/// What came of a waiting-for whose levels are this rule, by what came of the proof that they are some.
fn outcome_of(rule: Vec<u8>, tried: Tried) -> Stayed {
    match tried {
        Tried::Proved(proof) => Stayed::Levelled(rule, proof),
        Tried::Refuted(_goal, run) => Stayed::Refuted(run),
        Tried::Unknown(_goal, why, left) => Stayed::Unknown(why, left),
    }
}

/// That nothing is known, where so many queries are left.
fn unknown(task: Task<'_>, why: Why, text: Option<Vec<u8>>, left: u64) -> StayEffort {
    StayEffort {
        stayed: Stayed::Unknown(why, text),
        queries: task.budget.saturating_sub(left),
    }
}

/// The least proof of a waiting-for by what never is, and what never is at its levels.
fn levelled(
    alloc: Global,
    task: Task<'_>,
    staying: &Staying,
    given: Vec<Candidate>,
    always: Vec<Cube>,
    of_levels: Vec<Vec<Cube>>,
    budget: u64,
    naming: &mut Naming,
) -> Result<StayEffort, CubeFault> {
    let claim = claim_of(staying);
    let mut search = informed(alloc, task, staying, &given, always, budget)?;
    let writer = task.subject.writer(alloc, &search)?;
    let all = Levels::new(alloc, &search, claim, of_levels)?;
    let levels = lessened(alloc, &mut search, claim, all)?;
    let Some(rule) = rule_text(alloc, &writer, &staying.texts, &levels)? else {
        let unasked = search.give_back().saturating_add(task.budget / KEPT);
        return Ok(unknown(task, Why::Wide, None, unasked));
    };
    let claims = vec![in alloc; Claim::Waiting(levels)]?;
    let effort = finished(alloc, task, &mut search, &writer, given, &claims, naming)?;
    Ok(StayEffort {
        queries: effort.queries,
        stayed: outcome_of(rule, effort.tried),
    })
}

/// The states of a cube as a formula, where they can be said.
fn left_text(
    alloc: Global,
    writer: &ClauseWriter<'_>,
    left: Option<Cube>,
) -> Result<Option<Vec<u8>>, Memory> {
    let Some(cube) = left else {
        return Ok(None);
    };
    match writer.said(alloc, &cube) {
        Ok(phrase) => Ok(Some(phrase.text)),
        Err(ClauseFault::Unsaid) => Ok(None),
        Err(ClauseFault::Memory) => Err(Memory),
    }
}

/// That nothing is known, with the cube that was left, where so many queries are left.
fn unknown_beside(
    alloc: Global,
    task: Task<'_>,
    why: Why,
    cube: Option<Cube>,
    left: u64,
) -> Result<StayEffort, CubeFault> {
    let search = task.subject.search(alloc, 0)?;
    let writer = task.subject.writer(alloc, &search)?;
    let text = left_text(alloc, &writer, cube)?;
    Ok(unknown(task, why, text, left))
}

/// Tries to find levels for a waiting-for, or a run on which it fails.
pub(crate) fn find_levels<O: Observer>(
    alloc: Global,
    task: Task<'_>,
    staying: &Staying,
    naming: &mut Naming,
    observer: &O,
) -> Result<StayEffort, CubeFault> {
    let kept_back = task.budget / KEPT;
    let most = task.budget.saturating_sub(kept_back);
    let given = given_candidates(alloc, task)?;
    let (watched, left) = search_both(alloc, task, staying, &given, most, observer)?;
    let unasked = left.saturating_add(kept_back);
    match watched {
        Watched::Kept(kept) => levelled(
            alloc,
            task,
            staying,
            given,
            kept.always,
            kept.of_levels,
            left,
            naming,
        ),
        Watched::Refuted(run) => Ok(StayEffort {
            stayed: Stayed::Refuted(run),
            queries: task.budget.saturating_sub(unasked),
        }),
        Watched::Unknown(why, cube) => unknown_beside(alloc, task, why, cube, unasked),
    }
}
