//! Reports as text for people.

use super::Account;
use super::data::{Refusal, Told};
use crate::trouble::Trouble;
use milkhour_run::{Question, Status};
use screens::{Style, equations_screen, faults_screen, moves_screen, proof_screen, run_screen};
use std::alloc::Global;

/// Whether the answer's own text is what was asked for: certificates, and found invariants.
fn is_text_wanted(question: Question, status: Status) -> bool {
    matches!(question, Question::Prove | Question::Invariants) && status == Status::Proved
}

/// The screen of a refusal: its faults, or where none is told what `step` says.
pub fn refusal_text(alloc: Global, refusal: &Refusal, style: Style) -> Result<String, Trouble> {
    if refusal.faults.is_empty() {
        return Ok(refusal.headline.clone()?);
    }
    Ok(faults_screen(alloc, refusal.faults.as_slice(), style)?)
}

fn screen(alloc: Global, told: &Told, style: Style) -> Result<String, Trouble> {
    match told {
        Told::Proof(report) => Ok(proof_screen(alloc, report, style)?),
        Told::Run(report) => Ok(run_screen(alloc, report, style)?),
        Told::Moves(report) => Ok(moves_screen(alloc, report, style)?),
        Told::Equations(report) => Ok(equations_screen(alloc, report, style)?),
        Told::Refusal(refusal) => refusal_text(alloc, refusal, style),
    }
}

/// The text of an answer.
pub fn text_of(alloc: Global, account: &Account<'_>, told: &Told) -> Result<Vec<u8>, Trouble> {
    if is_text_wanted(account.question, account.answer.status) {
        return Ok(account.answer.text.clone()?);
    }
    Ok(screen(alloc, told, account.style)?.into_bytes())
}
