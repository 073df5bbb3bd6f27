//! Facts beside the equations that `invariants` finds. They are judged as `verify` does, behind the equations, before they are told.

use fact_texts::fact_texts;
use milkhour_run::{Answer, Question, Status, Texts, answer};
use st_memory::Memory;
use st_outside::OpenGate;
use std::alloc::Global;
use std::thread::Threads;

/// Whether `step` verifies a proof of a program.
fn verifies<'x, R: Threads + Sync>(
    rt: &R,
    alloc: Global,
    workers: u32,
    program: &'x [u8],
    proof: &'x [u8],
) -> Result<bool, Memory> {
    let texts = Texts {
        program: Some(program),
        proof: Some(proof),
        third: None,
    };
    let judged = answer(rt, alloc, Question::Verify, workers, &texts, &OpenGate)?;
    Ok(judged.status == Status::Proved)
}

/// The text with lines behind it, where there are some and `step` verifies the whole; else nothing.
fn with_lines<R: Threads + Sync>(
    rt: &R,
    alloc: Global,
    workers: u32,
    program: &[u8],
    text: &[u8],
    lines: &[u8],
) -> Result<Option<Vec<u8>>, Memory> {
    if lines.is_empty() {
        return Ok(None);
    }
    let mut whole = Vec::from_slice(alloc, text)?;
    whole.extend_from_slice(lines)?;
    if verifies(rt, alloc, workers, program, &whole)? {
        Ok(Some(whole))
    } else {
        Ok(None)
    }
}

/// The text with the facts of the program behind it: a step for each variable, or else one step for all.
fn text_with_facts<R: Threads + Sync>(
    rt: &R,
    alloc: Global,
    workers: u32,
    program: &[u8],
    text: &[u8],
) -> Result<Option<Vec<u8>>, Memory> {
    let facts = fact_texts(alloc, program)?;
    let apart = with_lines(rt, alloc, workers, program, text, &facts.apart)?;
    if apart.is_some() {
        return Ok(apart);
    }
    with_lines(rt, alloc, workers, program, text, &facts.together)
}

/// The answer with the facts of the program behind its equations, where it is that of `invariants`.
pub fn with_facts<R: Threads + Sync>(
    rt: &R,
    alloc: Global,
    workers: u32,
    question: Question,
    program: Option<&[u8]>,
    found: Answer,
) -> Result<Answer, Memory> {
    if question != Question::Invariants || found.status != Status::Proved {
        return Ok(found);
    }
    let Some(program) = program else {
        return Ok(found);
    };
    match text_with_facts(rt, alloc, workers, program, &found.text)? {
        Some(text) => Ok(Answer {
            status: Status::Proved,
            text,
        }),
        None => Ok(found),
    }
}
