//! What is shown of an answer, in the form that is asked for: data first, and then its text, document or page.

mod data;
mod documents;
mod pages;
mod remarks;
mod texts;

use crate::beside::Beside;
use crate::given::Given;
use crate::trouble::Trouble;
pub use data::moves_report;
use data::told_of;
pub use documents::document;
use milkhour_run::{Answer, Question};
use milkhour_words::{Format, Options};
use screens::Style;
use st_outside::Gate;
use std::alloc::Global;

/// An answer with all that a report may speak of.
#[derive(Clone, Copy)]
pub struct Account<'a> {
    pub question: Question,
    pub given: &'a Given<'a>,
    pub options: &'a Options<'a>,
    pub answer: &'a Answer,
    pub style: Style,
    pub remark_style: Style,
}

/// What is shown of an answer, and what is said beside it.
#[derive(Drop)]
pub struct Shown {
    pub text: Vec<u8>,
    pub remark: Option<String>,
}

/// What is shown of an answer, in another form than that of `step`. Where conditions are decided once more, the gate is told of it.
pub fn shown_of<G: Gate>(
    alloc: Global,
    gate: &G,
    account: &Account<'_>,
    beside: Beside,
) -> Result<Shown, Trouble> {
    let Beside { outline, warnings } = beside;
    let told = told_of(alloc, gate, account, outline)?;
    let remark = remarks::remark_of(alloc, account, &told, &warnings)?;
    let text = match account.options.format {
        Format::Json => documents::document_of(alloc, &told, &warnings)?,
        Format::Html => pages::page_of(alloc, account, &told)?,
        Format::Text | Format::Plain => texts::text_of(alloc, account, &told)?,
    };
    Ok(Shown { text, remark })
}
