//! The five tasks of `step`. The status is that of `step`, but where it leaves a condition open for which the stronger search finds a
//! certificate.

use crate::beside::{self, Beside, Saying};
use crate::facts::with_facts;
use crate::given::{Given, GivenText};
use crate::reports::{Account, Shown, shown_of};
use crate::streams::{Streams, Target, style_of, write_remark, write_result};
use crate::trouble::Trouble;
use crate::versions::{asks_for_certificates, in_version, large_certificates, tell_unfolding};
use milkhour_run::{Answer, Question, Status};
use milkhour_words::{Format, Options};
use progress_lines::{Progress, Watch};
use st_memory::Memory;
use st_outside::Gate;
use std::alloc::{AllocError, Global};
use std::rt::Runtime;
use std::str;
use std::thread::Threads;
use stronger_answers::answered;

/// Whether what is answered with status 0 is a text that is wanted, and no report.
fn gives_text(question: Question) -> bool {
    matches!(question, Question::Prove | Question::Invariants)
}

/// Whether a report is what was asked for; else it is a refusal, and belongs to standard error.
fn is_result(question: Question, status: Status) -> bool {
    match status {
        Status::Proved => true,
        Status::NotProved(_) => !gives_text(question),
        _ => false,
    }
}

/// Where an answer is told: the exact text, documents and pages where results go, and refusals for people on standard error.
fn target_of<'a>(question: Question, options: &Options<'a>, status: Status) -> Target<'a> {
    if options.format == Format::Text && !is_result(question, status) {
        Target::Remark
    } else {
        Target::Result(options.output)
    }
}

fn unreadable(alloc: Global, text: &GivenText<'_>) -> Result<Option<String>, AllocError> {
    match &text.bytes {
        Ok(_) => Ok(None),
        Err(error) => Ok(Some(format!(in alloc;
            "{}: error: can't be read: {error}\n",
            text.name
        )?)),
    }
}

/// Says why a file couldn't be read, where it couldn't.
pub fn tell_unread<R: Runtime + AllocGlobal>(rt: &R, text: &GivenText<'_>) -> Result<(), Trouble> {
    match unreadable(rt.alloc(), text)? {
        Some(remark) => write_remark(rt, remark.as_str()),
        None => Ok(()),
    }
}

/// Says which files couldn't be read, and why.
fn tell_unreadable<R: Runtime + AllocGlobal>(rt: &R, given: &Given<'_>) -> Result<(), Trouble> {
    for text in [
        Some(&given.program),
        given.proof.as_ref(),
        given.third.as_ref(),
    ] {
        if let Some(text) = text {
            tell_unread(rt, text)?;
        }
    }
    Ok(())
}

/// Writes what is shown of an answer, and behind it what is said beside.
fn write_shown<R: Runtime + AllocGlobal>(
    rt: &R,
    target: Target<'_>,
    shown: &Shown,
) -> Result<(), Trouble> {
    match target {
        Target::Result(output) => write_result(rt, output, shown.text.as_slice())?,
        Target::Remark => {
            write_remark(rt, str::from_utf8(shown.text.as_slice()).unwrap_or(""))?;
        }
    }
    match &shown.remark {
        Some(remark) => write_remark(rt, remark.as_str()),
        None => Ok(()),
    }
}

/// Whether both texts were read and their conditions decided, so that something can be said of what the claims are worth.
fn is_decided(status: Status) -> bool {
    matches!(status, Status::Proved | Status::NotProved(_))
}

/// Tells an answer in another form than that of `step`.
fn tell<R: Runtime + AllocGlobal + Threads, G: Gate>(
    rt: &R,
    gate: &G,
    streams: Streams,
    question: Question,
    given: &Given<'_>,
    options: &Options<'_>,
    answer: &Answer,
    begun: Option<Saying>,
) -> Result<(), Trouble> {
    if answer.status == Status::ReadFault {
        tell_unreadable(rt, given)?;
        if options.format == Format::Text {
            return Ok(());
        }
    }
    let target = target_of(question, options, answer.status);
    let account = Account {
        question,
        given,
        options,
        answer,
        style: style_of(rt, streams, target, options.colour),
        remark_style: style_of(rt, streams, Target::Remark, options.colour),
    };
    let beside = if is_decided(answer.status) {
        beside::finish(rt, begun, question, given, options)?
    } else {
        Beside::nothing(rt.alloc())
    };
    let shown = shown_of(rt.alloc(), gate, &account, beside)?;
    write_shown(rt, target, &shown)
}

/// An answer that was found while the texts were read.
fn copied(alloc: Global, answer: &Answer) -> Result<Answer, Memory> {
    Ok(Answer {
        status: answer.status,
        text: Vec::from_slice(alloc, answer.text.as_slice())?,
    })
}

/// What is shown of the answer: not with `--format plain`, the equations of `invariants` have facts behind them.
fn shown_answer<R: Runtime + AllocGlobal + Threads + Sync, G: Gate + Sync>(
    rt: &R,
    question: Question,
    options: &Options<'_>,
    given: &Given<'_>,
    gate: &G,
) -> Result<Answer, Memory> {
    if let Some(proved) = &given.proved {
        return copied(rt.alloc(), proved);
    }
    let texts = given.texts();
    let found = answered(rt, rt.alloc(), question, options.workers, &texts, gate)?;
    if options.format == Format::Plain {
        return Ok(found);
    }
    with_facts(
        rt,
        rt.alloc(),
        options.workers,
        question,
        texts.program,
        found,
    )
}

/// The answer in the version that is asked for, and whether certificates that were given are looked at.
fn told_answer<R: Runtime + AllocGlobal + Threads + Sync, G: Gate + Sync>(
    rt: &R,
    question: Question,
    options: &Options<'_>,
    given: &Given<'_>,
    gate: &G,
) -> Result<(Answer, bool), Trouble> {
    if let Some(written) = large_certificates(rt.alloc(), question, given, options)? {
        return Ok((written, false));
    }
    let found = shown_answer(rt, question, options, given, gate)?;
    let are_looked_at = asks_for_certificates(found.status);
    let answer = in_version(rt.alloc(), question, given, options, found)?;
    Ok((answer, are_looked_at))
}

/// Answers a question over the texts. The status is that of the answer, whatever is said of it.
pub fn answer_question<R: Runtime + AllocGlobal + Threads + Sync>(
    rt: &R,
    streams: Streams,
    question: Question,
    given: &Given<'_>,
    options: &Options<'_>,
) -> Result<u8, Trouble> {
    let begun = beside::begin(rt, question, given, options)?;
    let progress = Progress::new(rt, Watch::begin(rt, streams.is_error_terminal));
    let (answer, are_looked_at) = told_answer(rt, question, options, given, &progress)?;
    if options.format == Format::Plain {
        write_result(rt, options.output, answer.text.as_slice())?;
    } else {
        tell(
            rt, &progress, streams, question, given, options, &answer, begun,
        )?;
        if are_looked_at {
            tell_unfolding(rt, given)?;
        }
    }
    Ok(answer.status.number())
}
