//! A session: from the state that is shown a move is taken, the state behind it is shown, and so on, as lines of standard input say. A
//! state is the schedule that leads to it, so each is played from the beginning, and what stands behind is the schedules before it.

use crate::answering::answer_question;
use crate::given::Given;
use crate::listing_moves::schedule_given;
use crate::reports::moves_report;
use crate::streams::{Streams, write_remark, write_result};
use crate::trouble::Trouble;
use milkhour_run::{Question, Status};
use milkhour_words::{Format, Options};
use possible_moves::{Choice, MovesReport, choice_of};
use std::alloc::Global;
use std::io::{BufRead, ErrorKind};
use std::rt::Runtime;
use std::str;
use std::thread::Threads;

const MANUAL: &str =
    "a number or a name takes a move, `back` goes one back, `quit` or the end of input ends\n";

const FIRST: &str = "this is the first state\n";

/// What doesn't change while moves are taken.
#[derive(Clone, Copy)]
struct Table<'a> {
    streams: Streams,
    options: &'a Options<'a>,
}

/// Shows the state to which the schedule leads, or why it leads to none. In another form than text the last state alone is written.
fn show<R: Runtime + AllocGlobal + Threads + Sync>(
    rt: &R,
    table: Table<'_>,
    given: &Given<'_>,
) -> Result<(), Trouble> {
    if table.options.format != Format::Text {
        return Ok(());
    }
    let mut options = *table.options;
    options.output = None;
    answer_question(rt, table.streams, Question::Trace, given, &options)?;
    Ok(())
}

/// The next line; `None` at the end of the input.
fn next_line<I: BufRead + Drop>(
    alloc: Global,
    input: &mut I,
) -> Result<Option<Vec<u8>>, ErrorKind> {
    let mut line = Vec::new(alloc);
    match input.read_until(b'\n', &mut line) {
        Ok(0) => Ok(None),
        Ok(_) => Ok(Some(line)),
        Err(error) => Err(error.kind()),
    }
}

/// The state that is shown, and the schedules that lead to those before it.
#[derive(Drop)]
struct Session {
    before: Vec<String>,
    now: MovesReport,
}

/// Goes to the state to which a schedule leads. Where it leads to none that is told, and the session stays where it is.
fn advance<R: Runtime + AllocGlobal + Threads + Sync>(
    rt: &R,
    table: Table<'_>,
    given: &mut Given<'_>,
    session: &mut Session,
    schedule: &str,
) -> Result<(), Trouble> {
    let alloc = rt.alloc();
    given.third = Some(schedule_given(alloc, schedule)?);
    show(rt, table, given)?;
    if let Some(report) = moves_report(alloc, given)? {
        session.before.push(session.now.schedule.clone()?)?;
        session.now = report;
    }
    Ok(())
}

/// Goes back to the state before, if there is one.
fn retreat<R: Runtime + AllocGlobal + Threads + Sync>(
    rt: &R,
    table: Table<'_>,
    given: &mut Given<'_>,
    session: &mut Session,
) -> Result<(), Trouble> {
    let alloc = rt.alloc();
    let Some(schedule) = session.before.pop() else {
        return write_remark(rt, FIRST);
    };
    given.third = Some(schedule_given(alloc, &schedule)?);
    show(rt, table, given)?;
    if let Some(report) = moves_report(alloc, given)? {
        session.now = report;
    }
    Ok(())
}

/// Does what a line says, and answers whether the session goes on.
fn turn<R: Runtime + AllocGlobal + Threads + Sync>(
    rt: &R,
    table: Table<'_>,
    given: &mut Given<'_>,
    session: &mut Session,
    line: &[u8],
) -> Result<bool, Trouble> {
    match choice_of(&session.now.moves, str::from_utf8(line).unwrap_or("?")) {
        Choice::Take(name) => {
            let schedule = format!(in rt.alloc(); "{} {name};", session.now.schedule)?;
            advance(rt, table, given, session, &schedule)?;
        }
        Choice::Back => retreat(rt, table, given, session)?,
        Choice::Unknown => write_remark(rt, MANUAL)?,
        Choice::Nothing => {}
        Choice::Quit => return Ok(false),
    }
    Ok(true)
}

/// Takes moves until a line or the end of the input ends it.
fn play<R: Runtime + AllocGlobal + Threads + Sync>(
    rt: &R,
    table: Table<'_>,
    given: &mut Given<'_>,
    session: &mut Session,
) -> Result<Status, Trouble> {
    let mut input = rt.reader();
    for _ in 0..u64::MAX {
        if table.streams.are_interactive() {
            write_result(rt, None, b"> ")?;
        }
        match next_line(rt.alloc(), &mut input) {
            Ok(Some(line)) => {
                if !turn(rt, table, given, session, &line)? {
                    break;
                }
            }
            Ok(None) => break,
            Err(ErrorKind::OutOfMemory) => return Err(Trouble::Memory),
            Err(_) => return Ok(Status::ReadFault),
        }
    }
    Ok(Status::Proved)
}

/// Writes the schedule that leads to the last state; in another form than text the answer of this schedule.
fn conclude<R: Runtime + AllocGlobal + Threads + Sync>(
    rt: &R,
    table: Table<'_>,
    given: &mut Given<'_>,
    schedule: &str,
) -> Result<(), Trouble> {
    let alloc = rt.alloc();
    if table.options.format == Format::Text {
        let line = format!(in alloc; "{schedule}\n")?;
        return write_result(rt, table.options.output, line.as_bytes());
    }
    given.third = Some(schedule_given(alloc, schedule)?);
    answer_question(rt, table.streams, Question::Trace, given, table.options)?;
    Ok(())
}

/// Takes moves from the state to which the schedule among the texts leads, and answers the status.
pub fn step_through<R: Runtime + AllocGlobal + Threads + Sync>(
    rt: &R,
    streams: Streams,
    given: &mut Given<'_>,
    options: &Options<'_>,
) -> Result<u8, Trouble> {
    let alloc = rt.alloc();
    let table = Table { streams, options };
    let Some(report) = moves_report(alloc, given)? else {
        return answer_question(rt, streams, Question::Trace, given, options);
    };
    show(rt, table, given)?;
    if streams.are_interactive() {
        write_remark(rt, MANUAL)?;
    }
    let mut session = Session {
        before: Vec::new(alloc),
        now: report,
    };
    let status = play(rt, table, given, &mut session)?;
    conclude(rt, table, given, &session.now.schedule)?;
    Ok(status.number())
}
