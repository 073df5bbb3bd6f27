//! What was found as a page: a proof as `verify` shows it, a run as `trace` does.

use super::reporting::{FindReport, Verdict};
use crate::given::Given;
use crate::titles::title_of;
use explanations::{Texts, outline};
use html_pages::{PageTexts, proof_page, run_page, text_page};
use st_memory::Memory;
use std::alloc::Global;

/// The text of a program with the text that was found.
fn page_texts<'b>(given: &'b Given<'_>, found: &'b [u8]) -> PageTexts<'b> {
    PageTexts {
        program: given.texts().program.unwrap_or(b"".as_slice()),
        proof: found,
        drawing: None,
    }
}

/// The page of a text that was found, with each of its steps.
fn page_of_proof(
    alloc: Global,
    given: &Given<'_>,
    found: &[u8],
) -> Result<Option<Vec<u8>>, Memory> {
    let page_texts = page_texts(given, found);
    let texts = Texts {
        program_name: given.program.name,
        program: page_texts.program,
        proof_name: given.proof_name(),
        proof: page_texts.proof,
    };
    match outline(alloc, &texts)? {
        Some(report) => Ok(Some(proof_page(alloc, &report, &page_texts)?)),
        None => Ok(None),
    }
}

/// The page of a run on which a goal fails.
fn page_of_run(
    alloc: Global,
    given: &Given<'_>,
    report: &FindReport,
) -> Result<Option<Vec<u8>>, Memory> {
    let (Some(run), Some(proof)) = (&report.run, &report.proof) else {
        return Ok(None);
    };
    Ok(Some(run_page(alloc, run, &page_texts(given, proof.as_bytes()))?))
}

/// The page of what was found; of a claim of which nothing was found, what is said of it.
pub fn page_of(
    alloc: Global,
    given: &Given<'_>,
    report: &FindReport,
    said: &str,
) -> Result<Vec<u8>, Memory> {
    let page = match report.verdict {
        Verdict::Proved => page_of_proof(alloc, given, report.text.as_slice())?,
        Verdict::False => page_of_run(alloc, given, report)?,
        Verdict::NotFound => None,
    };
    match page {
        Some(page) => Ok(page),
        None => {
            let title = title_of(alloc, given)?;
            text_page(alloc, &title, false, said.as_bytes())
        }
    }
}
