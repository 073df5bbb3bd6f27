//! What is told of an answer, as data. Nothing is decided anew where the answer is that all is proved.

use super::Account;
use crate::given::Given;
use equation_reports::report_equations;
use explanations::{Report, Texts, explain};
use fault_reports::{Fault, TextFile, faults_of_program, faults_of_proof, faults_of_schedule};
use milkhour_run::{Answer, Question, Status};
use milkhour_words::Options;
use possible_moves::{MoveTexts, MovesReport, report_moves};
use proof_reports::EquationReport;
use run_reports::{RunReport, RunTexts, report_run};
use serde::Serialize;
use st_memory::Memory;
use st_outside::Gate;
use std::alloc::Global;
use std::str;

/// The version of the form of refusals.
const SCHEMA: &str = "milkhour.faults/1";

/// What is told of texts that are refused, and of every answer of which there is no more to tell. `status` and `headline`
/// are `step`'s.
#[derive(Serialize, Drop)]
pub struct Refusal {
    pub schema: String,
    pub status: u8,
    pub headline: String,
    pub faults: Vec<Fault>,
}

/// What is told of an answer.
#[derive(Drop)]
pub enum Told {
    Proof(Box<Report>),
    Run(Box<RunReport>),
    Moves(Box<MovesReport>),
    Equations(Box<EquationReport>),
    Refusal(Box<Refusal>),
}

/// The text of `step`, which is always text.
fn headline(answer: &Answer) -> &str {
    match str::from_utf8(answer.text.as_slice()) {
        Ok(text) => text,
        Err(_) => "",
    }
}

/// A text of the request, by its name.
fn file<'b>(name: &'b str, bytes: Option<&'b [u8]>) -> TextFile<'b> {
    TextFile {
        name,
        text: bytes.unwrap_or(b"".as_slice()),
    }
}

/// The faults of the text that a status refuses.
fn faults(alloc: Global, status: Status, given: &Given<'_>) -> Result<Vec<Fault>, Memory> {
    let texts = given.texts();
    let program = file(given.program.name, texts.program);
    let proof = file(given.proof_name(), texts.proof);
    match status {
        Status::ProgramRefused => faults_of_program(alloc, program),
        Status::ProofRefused | Status::Limit => faults_of_proof(alloc, program, proof),
        Status::ScheduleRefused => faults_of_schedule(
            alloc,
            program,
            file(given.third_name(), texts.third),
        ),
        _ => Ok(Vec::new(alloc)),
    }
}

/// What is told of a refusal, or of an answer that says it all itself.
fn refusal_told(alloc: Global, account: &Account<'_>) -> Result<Told, Memory> {
    let answer = account.answer;
    let refusal = Refusal {
        schema: String::from_str(alloc, SCHEMA)?,
        status: answer.status.number(),
        headline: String::from_str(alloc, headline(answer))?,
        faults: faults(alloc, answer.status, account.given)?,
    };
    Ok(Told::Refusal(Box::new(alloc, refusal)?))
}

/// The report of a search: its steps where all is proved, and what is open where it isn't.
fn proof_report<G: Gate>(
    alloc: Global,
    gate: &G,
    account: &Account<'_>,
    outline: Option<Report>,
) -> Result<Option<Report>, Memory> {
    let given = account.given;
    let held = given.texts();
    let (Some(program), Some(proof)) = (held.program, held.proof) else {
        return Ok(None);
    };
    let texts = Texts {
        program_name: given.program.name,
        program,
        proof_name: given.proof_name(),
        proof,
    };
    match (account.question, account.answer.status) {
        (Question::Verify | Question::Check, Status::Proved) => Ok(outline),
        (Question::Verify | Question::Prove, Status::NotProved(_)) => explain(
            alloc,
            gate,
            &texts,
            account.options.limit as usize,
        ),
        _ => Ok(None),
    }
}

/// A report of a search has the status and the headline of the answer, whatever else is found.
fn proof_told<G: Gate>(
    alloc: Global,
    gate: &G,
    account: &Account<'_>,
    outline: Option<Report>,
) -> Result<Option<Told>, Memory> {
    let Some(mut report) = proof_report(alloc, gate, account, outline)? else {
        return Ok(None);
    };
    report.status = account.answer.status.number();
    report.headline = String::from_str(alloc, headline(account.answer))?;
    Ok(Some(Told::Proof(Box::new(alloc, report)?)))
}

/// The report of a run that was played.
fn run_report(alloc: Global, account: &Account<'_>) -> Result<Option<RunReport>, Memory> {
    let given = account.given;
    let held = given.texts();
    if account.question != Question::Trace || account.answer.status != Status::Proved {
        return Ok(None);
    }
    let (Some(program), Some(proof), Some(schedule)) = (held.program, held.proof, held.third) else {
        return Ok(None);
    };
    let texts = RunTexts {
        program_name: given.program.name,
        program,
        proof_name: given.proof_name(),
        proof,
        schedule,
    };
    report_run(alloc, &texts)
}

fn run_told(alloc: Global, account: &Account<'_>) -> Result<Option<Told>, Memory> {
    let Some(mut report) = run_report(alloc, account)? else {
        return Ok(None);
    };
    report.status = account.answer.status.number();
    report.headline = String::from_str(alloc, headline(account.answer))?;
    Ok(Some(Told::Run(Box::new(alloc, report)?)))
}

/// Whether it is asked what may be done in a state.
fn asks_for_moves(options: &Options<'_>) -> bool {
    options.step || options.from.is_some()
}

/// The report of the state to which a schedule leads; `None` where it leads to none.
pub fn moves_report(alloc: Global, given: &Given<'_>) -> Result<Option<MovesReport>, Memory> {
    let held = given.texts();
    let (Some(program), Some(schedule)) = (held.program, held.third) else {
        return Ok(None);
    };
    let texts = MoveTexts {
        program_name: given.program.name,
        program,
        schedule,
    };
    report_moves(alloc, &texts)
}

fn moves_told(alloc: Global, account: &Account<'_>) -> Result<Option<Told>, Memory> {
    if account.answer.status != Status::Proved {
        return Ok(None);
    }
    let Some(mut report) = moves_report(alloc, account.given)? else {
        return Ok(None);
    };
    report.status = account.answer.status.number();
    report.headline = String::from_str(alloc, headline(account.answer))?;
    Ok(Some(Told::Moves(Box::new(alloc, report)?)))
}

/// The report of equations that were found.
fn equations_told(alloc: Global, account: &Account<'_>) -> Result<Option<Told>, Memory> {
    if account.question != Question::Invariants || account.answer.status != Status::Proved {
        return Ok(None);
    }
    let text = headline(account.answer);
    let given = account.given;
    let mut report = report_equations(alloc, given.program.name, text)?;
    report.headline = String::from_str(alloc, text)?;
    Ok(Some(Told::Equations(Box::new(alloc, report)?)))
}

/// What is told of an answer to its question, where there is more to tell than its text.
fn report_told<G: Gate>(
    alloc: Global,
    gate: &G,
    account: &Account<'_>,
    outline: Option<Report>,
) -> Result<Option<Told>, Memory> {
    match account.question {
        Question::Trace if asks_for_moves(account.options) => moves_told(alloc, account),
        Question::Trace => run_told(alloc, account),
        Question::Invariants => equations_told(alloc, account),
        Question::Verify | Question::Check | Question::Prove => {
            proof_told(alloc, gate, account, outline)
        }
    }
}

/// What is told of an answer; of a proof whose claims were all proved it is the outline.
pub fn told_of<G: Gate>(
    alloc: Global,
    gate: &G,
    account: &Account<'_>,
    outline: Option<Report>,
) -> Result<Told, Memory> {
    match report_told(alloc, gate, account, outline)? {
        Some(told) => Ok(told),
        None => refusal_told(alloc, account),
    }
}
