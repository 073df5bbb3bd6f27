//! `find`: what is found is judged by proved calls before it is told, a proof as `verify` does, and a run by the goal that fails on it.

mod judging;
mod observing;
mod pages;
mod reporting;
mod telling;
mod whole;

use crate::given::{Given, GivenText};
use crate::streams::Streams;
use crate::trouble::Trouble;
use find_requests::script_around;
use found_proofs::{ATTEMPTS, FindFault, attempt_proofs, share};
use judging::Subject;
use milkhour_words::Options;
use observing::SearchLines;
use progress_lines::Watch;
use proof_script::ScriptFault;
use reporting::{FindReport, Verdict, report_of, untried_report};
use st_memory::Memory;
use std::alloc::Global;
use std::io::Eprint;
use std::rt::Runtime;
use std::thread::Threads;
use std::time::Clock;
use telling::tell;

/// The most questions to the prover of a search that an editor asks for, which are as many as `milkhour find` asks by itself.
const EDITOR_BUDGET: u64 = 200_000;

/// Says which attempt begins, by its number from 0, and how many questions were asked in front of it, where the search takes long. Where
/// this can't be written, nothing is lost.
fn say_attempt<R: Clock + Eprint>(rt: &R, watch: Watch, number: usize, asked: u64) {
    if watch.is_late(rt) {
        let attempt = number.saturating_add(1);
        let _ = eprintln!(rt;
            "milkhour: attempt {attempt} of {}, {asked} questions so far",
            ATTEMPTS.len()
        );
    }
}

/// Where an attempt finds nothing and names nothing that is left, what an earlier one left is told.
fn keep_left(before: &mut FindReport, next: &mut FindReport) {
    if next.verdict == Verdict::NotFound && next.left.is_none() {
        next.left = before.left.take();
    }
}

/// What comes of the attempts: the first that proves or refutes, else the last.
fn search<R: Clock + Eprint + Threads + Sync>(
    rt: &R,
    subject: &Subject<'_>,
    proof: &[u8],
    watch: Watch,
) -> Result<FindReport, FindFault> {
    let lines = SearchLines::new(rt, watch);
    let mut left = subject.budget;
    let mut report = untried_report(subject)?;
    for (number, attempt) in ATTEMPTS.iter().enumerate() {
        say_attempt(rt, watch, number, subject.budget.saturating_sub(left));
        let share = share(number, left);
        let tried = attempt_proofs(
            subject.alloc,
            subject.program,
            proof,
            *attempt,
            share,
            &lines,
        )?;
        left = left.saturating_sub(tried.queries);
        let mut next = report_of(rt, subject, &tried.found)?;
        keep_left(&mut report, &mut next);
        report = next;
        report.queries = subject.budget.saturating_sub(left);
        if report.verdict != Verdict::NotFound {
            return Ok(report);
        }
    }
    Ok(report)
}

/// What comes of a search for proofs of the claims of a text; `None` where a text couldn't be read.
fn searched<R: Runtime + AllocGlobal + Threads + Sync>(
    rt: &R,
    streams: Streams,
    given: &Given<'_>,
    options: &Options<'_>,
) -> Result<Option<FindReport>, FindFault> {
    let held = given.texts();
    let (Some(program), Some(proof)) = (held.program, held.proof) else {
        return Ok(None);
    };
    let subject = Subject {
        alloc: rt.alloc(),
        workers: options.workers,
        budget: options.budget,
        program,
        front: given.front(),
        program_name: given.program.name,
        proof_name: given.proof_name(),
    };
    let watch = Watch::begin(rt, streams.is_error_terminal);
    Ok(Some(search(rt, &subject, proof, watch)?))
}

/// What is left of a proof with a fault at a place: `step` refuses it there, though each response `by find` is a fault to `step`.
fn left_around<'a>(
    alloc: Global,
    proof: &GivenText<'a>,
    place: u64,
) -> Result<GivenText<'a>, Memory> {
    let text = proof.bytes().unwrap_or(b"".as_slice());
    let left = script_around(alloc, text, place)?;
    Ok(GivenText {
        name: proof.name,
        bytes: Ok(left),
    })
}

/// Leaves of the proof what `step` refuses as `find` does.
fn leave_fault<'a>(alloc: Global, given: &mut Given<'a>, fault: ScriptFault) -> Result<(), Memory> {
    let ScriptFault::At(_, place) = fault else {
        return Err(Memory);
    };
    let left = match &given.proof {
        Some(proof) => left_around(alloc, proof, place)?,
        None => return Ok(()),
    };
    given.proof = Some(left);
    Ok(())
}

/// Looks for proofs of the claims of a text, and tells what was found. `None` where the texts are refused: `step` says then why, of the
/// proof that is left in `given`.
pub fn find<R: Runtime + AllocGlobal + Threads + Sync>(
    rt: &R,
    streams: Streams,
    given: &mut Given<'_>,
    options: &Options<'_>,
) -> Result<Option<u8>, Trouble> {
    match searched(rt, streams, given, options) {
        Ok(Some(report)) => {
            tell(rt, streams, given, options, &report)?;
            Ok(Some(report.status))
        }
        Err(FindFault::Proof(fault)) => {
            leave_fault(rt.alloc(), given, fault)?;
            Ok(None)
        }
        Err(FindFault::Memory) => Err(Trouble::Memory),
        Ok(None) => Ok(None),
        Err(_) => Ok(None),
    }
}

/// The text that `find` writes of a program and its claims, where it proves them.
pub fn found_proof<R: Clock + Eprint + Threads + Sync>(
    rt: &R,
    alloc: Global,
    program: &[u8],
    proof: &[u8],
) -> Result<Option<Vec<u8>>, Memory> {
    let subject = Subject {
        alloc,
        workers: 1,
        budget: EDITOR_BUDGET,
        program,
        front: None,
        program_name: "",
        proof_name: "",
    };
    match search(rt, &subject, proof, Watch::silent()) {
        Ok(report) if report.verdict == Verdict::Proved => Ok(Some(report.text)),
        Err(FindFault::Memory) => Err(Memory),
        _ => Ok(None),
    }
}
