//! Each task over its files.

use crate::answering::answer_question;
use crate::drawing::draw;
use crate::finding::find;
use crate::given::{Given, read_files};
use crate::listing::list_conditions;
use crate::listing_moves::{asks_for_moves, trace_moves};
use crate::streams::Streams;
use crate::trouble::Trouble;
use fault_reports::{TextFile, goals_refused};
use milkhour_run::Question;
use milkhour_words::{Options, Task, Work};
use std::alloc::Global;
use std::rt::Runtime;
use std::thread::Threads;

/// The question that a task puts to `step`: the whole of it, or the one whose refusal of the texts is the task's too.
fn question_of(task: Task, given: &Given<'_>) -> Question {
    match task {
        Task::Check => Question::Check,
        Task::Prove => Question::Prove,
        Task::Trace => Question::Trace,
        Task::Invariants => Question::Invariants,
        Task::Draw if given.proof.is_none() => Question::Invariants,
        Task::Draw => Question::Verify,
        Task::Find => Question::Verify,
        Task::Conditions => Question::Verify,
        Task::Verify => Question::Verify,
    }
}

/// Does a task that is more than a question to `step`. `None` where it is none such, or the texts are refused.
fn own_work<R: Runtime + AllocGlobal + Threads + Sync>(
    rt: &R,
    streams: Streams,
    work: &Work<'_>,
    given: &mut Given<'_>,
) -> Result<Option<u8>, Trouble> {
    match work.task {
        Task::Find => find(rt, streams, given, &work.options),
        Task::Conditions => list_conditions(rt, given, &work.options),
        Task::Draw => draw(rt, given, &work.options),
        Task::Verify | Task::Check | Task::Prove | Task::Trace | Task::Invariants => Ok(None),
    }
}

/// Whether a task makes do with a program alone.
fn needs_no_proof(task: Task) -> bool {
    task == Task::Invariants || task == Task::Draw
}

/// A text that has no proof, though the task is over one.
fn lacks_proof(task: Task, given: &Given<'_>) -> bool {
    given.proof.is_none() && given.program.bytes.is_ok() && !needs_no_proof(task)
}

fn no_proof(alloc: Global, name: &str) -> Result<Trouble, Trouble> {
    let text = format!(in alloc;
        "{name} has no line `proof` with a proof behind it; name the file of the proof behind it"
    )?;
    Ok(Trouble::Words(text))
}

/// Refuses names of goals that are no steps of the proof.
fn refuse_goals(alloc: Global, given: &Given<'_>, options: &Options<'_>) -> Result<(), Trouble> {
    let (Some(goals), Some(proof)) = (options.goals, given.texts().proof) else {
        return Ok(());
    };
    let proof = TextFile {
        name: given.proof_name(),
        text: proof,
    };
    match goals_refused(alloc, proof, goals)? {
        Some(refusal) => Err(Trouble::Words(refusal)),
        None => Ok(()),
    }
}

/// Does a task, and answers the status.
pub fn work<R: Runtime + AllocGlobal + Threads + Sync>(
    rt: &R,
    streams: Streams,
    work: &Work<'_>,
) -> Result<u8, Trouble> {
    if asks_for_moves(work) {
        return trace_moves(rt, streams, work);
    }
    let mut given = read_files(rt, work.task, &work.files)?;
    if lacks_proof(work.task, &given) {
        return Err(no_proof(rt.alloc(), given.program.name)?);
    }
    refuse_goals(rt.alloc(), &given, &work.options)?;
    match own_work(rt, streams, work, &mut given)? {
        Some(status) => Ok(status),
        None => answer_question(
            rt,
            streams,
            question_of(work.task, &given),
            &given,
            &work.options,
        ),
    }
}
