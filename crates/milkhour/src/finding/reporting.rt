//! What is told of a search for a proof, as data.

use super::judging::{Subject, is_proof, is_refuted};
use super::whole::whole_file;
use found_proofs::{Failing, Found, Missing, Proposal, Unfound};
use milkhour_run::Status;
use run_reports::{RunReport, RunTexts, report_run};
use serde::Serialize;
use st_memory::Memory;
use std::alloc::{AllocError, Global};
use std::thread::Threads;

/// The version of the form of what is found.
const SCHEMA: &str = "milkhour.find/1";

/// What became of the claims.
#[derive(Clone, Copy, Debug, PartialEq, Eq, Serialize)]
#[serde(rename_all = "kebab-case")]
pub enum Verdict {
    /// The text proves them all.
    Proved,
    /// The goal fails on the run of the schedule.
    False,
    NotFound,
}

/// What is told of a search for a proof.
#[derive(Serialize, Drop)]
pub struct FindReport {
    pub schema: String,
    pub status: u8,
    pub verdict: Verdict,
    pub goal: Option<String>,
    /// The text of the proof; of a goal that isn't shown, what was found so far.
    pub proof: Option<String>,
    pub schedule: Option<String>,
    pub run: Option<RunReport>,
    pub reason: Option<String>,
    /// What was left to be excluded, as a formula.
    pub left: Option<String>,
    /// How many questions were asked.
    pub queries: u64,
    /// The file of the proof where it proves the claims, which need not be UTF-8 in its comments.
    #[serde(skip)]
    pub file: Vec<u8>,
    /// The same proof with blanks for a program that stands in front of it.
    #[serde(skip)]
    pub text: Vec<u8>,
}

fn text_of(alloc: Global, bytes: &[u8]) -> Result<String, AllocError> {
    String::from_utf8_lossy(alloc, bytes)
}

fn empty_report(alloc: Global, verdict: Verdict) -> Result<FindReport, AllocError> {
    let status = match verdict {
        Verdict::Proved => Status::Proved,
        Verdict::False | Verdict::NotFound => Status::NotProved(1),
    };
    Ok(FindReport {
        schema: String::from_str(alloc, SCHEMA)?,
        status: status.number(),
        verdict,
        goal: None,
        proof: None,
        schedule: None,
        run: None,
        reason: None,
        left: None,
        queries: 0,
        file: Vec::new(alloc),
        text: Vec::new(alloc),
    })
}

/// A report that nothing was found of a goal.
fn unfound_report(alloc: Global, goal: &str, reason: &str) -> Result<FindReport, AllocError> {
    let mut report = empty_report(alloc, Verdict::NotFound)?;
    report.goal = Some(String::from_str(alloc, goal)?);
    report.reason = Some(String::from_str(alloc, reason)?);
    Ok(report)
}

fn reason_of(alloc: Global, unfound: Unfound, budget: u64) -> Result<String, AllocError> {
    match unfound {
        Unfound::Budget => format!(in alloc;
            "the budget of {budget} questions is spent: --budget N allows more; try `milkhour invariants` first"
        ),
        Unfound::Wide => String::from_str(
            alloc,
            "a condition is too wide to be decided, or a number is too large",
        ),
        Unfound::Levels => String::from_str(alloc, "there would be too many levels"),
        Unfound::Chain => String::from_str(alloc, "no chain of helpers was found for the response"),
    }
}

fn missing_report(subject: &Subject<'_>, missing: &Missing) -> Result<FindReport, Memory> {
    let alloc = subject.alloc;
    let reason = reason_of(alloc, missing.why, subject.budget)?;
    let mut report = unfound_report(alloc, missing.goal.as_str(), reason.as_str())?;
    let file = whole_file(alloc, subject.front, missing.so_far.as_slice())?;
    report.proof = Some(text_of(alloc, file.as_slice())?);
    if let Some(left) = &missing.left {
        report.left = Some(text_of(alloc, left.as_slice())?);
    }
    Ok(report)
}

/// The run that refutes a goal, position by position.
fn run_of(subject: &Subject<'_>, failing: &Failing) -> Result<Option<RunReport>, Memory> {
    let texts = RunTexts {
        program_name: subject.program_name,
        program: subject.program,
        proof_name: subject.proof_name,
        proof: failing.proof.as_slice(),
        schedule: failing.schedule.as_slice(),
    };
    report_run(subject.alloc, &texts)
}

/// A run on which the goal doesn't fail refutes nothing.
fn failing_report(subject: &Subject<'_>, failing: &Failing) -> Result<FindReport, Memory> {
    let alloc = subject.alloc;
    let goal = failing.goal.as_str();
    if !is_refuted(
        subject,
        failing.proof.as_slice(),
        failing.schedule.as_slice(),
    )? {
        let reason = "a run was found, and the goal doesn't fail on it";
        return Ok(unfound_report(alloc, goal, reason)?);
    }
    let mut report = empty_report(alloc, Verdict::False)?;
    report.goal = Some(String::from_str(alloc, goal)?);
    report.proof = Some(text_of(alloc, failing.proof.as_slice())?);
    report.schedule = Some(text_of(alloc, failing.schedule.as_slice())?);
    report.run = run_of(subject, failing)?;
    Ok(report)
}

/// A proof is told as one only where `step` verifies the text that is told: what is found may be too wide for it.
fn proof_report<R: Threads + Sync>(
    rt: &R,
    subject: &Subject<'_>,
    proposal: &Proposal,
) -> Result<FindReport, Memory> {
    let alloc = subject.alloc;
    let text = proposal.text.as_slice();
    if !is_proof(rt, subject, text)? {
        let reason = "what was found is too wide to be verified";
        return Ok(unfound_report(alloc, proposal.goal.as_str(), reason)?);
    }
    let mut report = empty_report(alloc, Verdict::Proved)?;
    let file = whole_file(alloc, subject.front, text)?;
    report.proof = Some(text_of(alloc, file.as_slice())?);
    report.file = file;
    report.text = Vec::from_slice(alloc, text)?;
    Ok(report)
}

/// What is told of what was found.
pub fn report_of<R: Threads + Sync>(
    rt: &R,
    subject: &Subject<'_>,
    found: &Found,
) -> Result<FindReport, Memory> {
    match found {
        Found::Proof(proposal) => proof_report(rt, subject, proposal),
        Found::False(failing) => failing_report(subject, failing),
        Found::NotFound(missing) => missing_report(subject, missing),
    }
}

/// What is told before the first attempt.
pub fn untried_report(subject: &Subject<'_>) -> Result<FindReport, Memory> {
    let alloc = subject.alloc;
    let mut report = empty_report(alloc, Verdict::NotFound)?;
    report.reason = Some(reason_of(alloc, Unfound::Budget, subject.budget)?);
    Ok(report)
}
