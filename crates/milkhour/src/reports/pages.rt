//! Reports as pages in HTML.

use super::Account;
use super::data::{Refusal, Told};
use super::texts::refusal_text;
use crate::titles::title_of;
use crate::trouble::Trouble;
use html_pages::{PageTexts, equation_page, proof_page, run_page, text_page};
use milkhour_run::Status;
use possible_moves::MovesReport;
use screens::{Style, moves_screen};
use std::alloc::Global;

fn page_texts<'b>(account: &Account<'b>) -> PageTexts<'b> {
    let texts = account.given.texts();
    PageTexts {
        program: texts.program.unwrap_or(b"".as_slice()),
        proof: texts.proof.unwrap_or(b"".as_slice()),
        drawing: account.given.drawing(),
    }
}

/// How a screen is written that stands on a page.
fn page_style(account: &Account<'_>) -> Style {
    Style {
        colour: false,
        width: account.style.width,
    }
}

/// The page of a refusal: its screen, without colours.
fn refusal_page(
    alloc: Global,
    account: &Account<'_>,
    refusal: &Refusal,
) -> Result<Vec<u8>, Trouble> {
    let text = refusal_text(alloc, refusal, page_style(account))?;
    let is_good = account.answer.status == Status::Proved;
    let title = title_of(alloc, account.given)?;
    Ok(text_page(alloc, &title, is_good, text.as_bytes())?)
}

/// The page of a state and its moves: their screen, without colours.
fn moves_page(
    alloc: Global,
    account: &Account<'_>,
    report: &MovesReport,
) -> Result<Vec<u8>, Trouble> {
    let text = moves_screen(alloc, report, page_style(account))?;
    let title = title_of(alloc, account.given)?;
    Ok(text_page(alloc, &title, true, text.as_bytes())?)
}

/// The page of an answer.
pub fn page_of(alloc: Global, account: &Account<'_>, told: &Told) -> Result<Vec<u8>, Trouble> {
    match told {
        Told::Proof(report) => Ok(proof_page(alloc, report, &page_texts(account))?),
        Told::Run(report) => Ok(run_page(alloc, report, &page_texts(account))?),
        Told::Moves(report) => moves_page(alloc, account, report),
        Told::Equations(report) => Ok(equation_page(alloc, report, page_texts(account).program)?),
        Told::Refusal(refusal) => refusal_page(alloc, account, refusal),
    }
}
