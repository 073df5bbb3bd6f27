//! `trace` of no schedule's file: what may be done in a state. The state is given by the schedule that leads to it, and what is
//! answered is what `step` answers of this schedule over a proof without steps.

use crate::answering::answer_question;
use crate::given::{Given, GivenText, INPUT, read_files, refusal};
use crate::stepping_through::step_through;
use crate::streams::Streams;
use crate::trouble::Trouble;
use milkhour_run::Question;
use milkhour_words::{Options, Task, Work};
use possible_moves::first_schedule;
use std::alloc::{AllocError, Global};
use std::rt::Runtime;
use std::thread::Threads;

/// What a schedule is called in reports that stands among the words.
const SCHEDULE: &str = "--from";

/// Whether a trace has no schedule's file, or asks for what may be done.
pub fn asks_for_moves(work: &Work<'_>) -> bool {
    let options = &work.options;
    work.task == Task::Trace
        && (work.files.third.is_none() || options.step || options.from.is_some())
}

/// A schedule among the texts.
pub fn schedule_given<'a>(alloc: Global, schedule: &str) -> Result<GivenText<'a>, AllocError> {
    Ok(GivenText {
        name: SCHEDULE,
        bytes: Ok(Vec::from_slice(alloc, schedule.as_bytes())?),
    })
}

/// The schedule that leads to the first state: the one that is asked for, or one of no moves.
fn first_given<'a>(
    alloc: Global,
    given: &Given<'_>,
    from: Option<&str>,
) -> Result<GivenText<'a>, Trouble> {
    match from {
        Some(schedule) => Ok(schedule_given(alloc, schedule)?),
        None => {
            let texts = given.texts();
            let program = texts.program.unwrap_or(b"".as_slice());
            let schedule = first_schedule(alloc, program)?;
            Ok(schedule_given(alloc, schedule.as_str())?)
        }
    }
}

/// The texts with a proof without steps in the place of the one that is there, and a schedule beside it.
fn set_out<'a>(alloc: Global, given: Given<'a>, schedule: GivenText<'a>) -> Given<'a> {
    let name = given.program.name;
    Given {
        task: given.task,
        is_one_file: false,
        program: given.program,
        proof: Some(GivenText {
            name,
            bytes: Ok(Vec::new(alloc)),
        }),
        third: Some(schedule),
        proved: None,
        unfolding: None,
        drawing: given.drawing,
    }
}

/// Why a trace can't be done as the words say, if it can't.
fn mistake(work: &Work<'_>, is_session: bool) -> Option<&'static str> {
    if work.files.third.is_some() {
        return Some("with --from or --step a program is the only file");
    }
    if !is_session && work.options.from.is_none() {
        return Some(
            "a schedule is missing: name its file, or see what may be done by --from or --step",
        );
    }
    if is_session && work.files.program == INPUT {
        return Some("standard input says which moves are taken, so - can't stand for the program");
    }
    None
}

/// Shows what may be done in a state, or takes moves from there as they are chosen; and answers the status.
pub fn trace_moves<R: Runtime + AllocGlobal + Threads + Sync>(
    rt: &R,
    streams: Streams,
    work: &Work<'_>,
) -> Result<u8, Trouble> {
    let mut options: Options<'_> = work.options;
    options.step = options.step || (options.from.is_none() && streams.are_interactive());
    if let Some(text) = mistake(work, options.step) {
        return Err(refusal(rt.alloc(), text));
    }
    let read = read_files(rt, work.task, &work.files)?;
    let schedule = first_given(rt.alloc(), &read, options.from)?;
    let mut given = set_out(rt.alloc(), read, schedule);
    if options.step {
        step_through(rt, streams, &mut given, &options)
    } else {
        answer_question(rt, streams, Question::Trace, &given, &options)
    }
}
