//! The page of a proof over a program: both texts, the steps with their verdicts, and the conditions that are open, with their states.

use crate::failures::push_failure;
use crate::frame::{push_end, push_head, push_headline};
use crate::page::Page;
use crate::sources::{ProofPlace, Role, proof_place, push_source};
use crate::steps::push_steps;
use base64::engine::general_purpose::STANDARD;
use proof_reports::Report;
use st_memory::Memory;
use std::alloc::Global;

/// The texts that a page shows. The drawing is one in SVG, as Graphviz makes it.
#[derive(Clone, Copy)]
pub struct PageTexts<'a> {
    pub program: &'a [u8],
    pub proof: &'a [u8],
    pub drawing: Option<&'a [u8]>,
}

/// What a report is of: one file with both texts, or a proof over a program.
fn subject(alloc: Global, report: &Report) -> Result<String, Memory> {
    let Report { program, proof, .. } = report;
    if program.as_str() == proof.as_str() {
        return Ok(proof.clone()?);
    }
    Ok(format!(in alloc; "{proof} over {program}")?)
}

/// The headline of a report.
fn headline(alloc: Global, report: &Report) -> Result<String, Memory> {
    let subject = subject(alloc, report)?;
    let Report {
        conditions,
        failing,
        ..
    } = report;
    let ending = if *conditions == 1 { "" } else { "s" };
    if *failing == 0 {
        return Ok(format!(in alloc; "{subject}: proved, by {conditions} condition{ending}")?);
    }
    let fail = if *failing == 1 { "fails" } else { "fail" };
    Ok(format!(in alloc;
        "{subject}: not proved, {failing} of {conditions} condition{ending} {fail}"
    )?)
}

/// The lines of a file that are told of.
fn told_lines(alloc: Global, report: &Report, file: &str) -> Result<Vec<u64>, Memory> {
    let mut lines = Vec::new(alloc);
    for failure in &report.failures {
        for spot in &failure.spots {
            if spot.file.as_str() == file {
                lines.push(spot.line)?;
            }
        }
    }
    Ok(lines)
}

/// Appends a drawing. As an image it can load nothing and run nothing.
pub(crate) fn push_drawing(
    alloc: Global,
    page: &mut Page,
    drawing: Option<&[u8]>,
) -> Result<(), Memory> {
    if let Some(drawing) = drawing {
        let encoded = STANDARD.encode(alloc, drawing)?;
        page.markup("<h2>Drawing</h2>\n<img alt=\"drawing\" src=\"data:image/svg+xml;base64,")?;
        page.text(&encoded)?;
        page.markup("\">\n")?;
    }
    Ok(())
}

/// Appends both texts.
fn push_texts(
    alloc: Global,
    page: &mut Page,
    report: &Report,
    texts: &PageTexts<'_>,
    proof: ProofPlace<'_>,
) -> Result<(), Memory> {
    let told = told_lines(alloc, report, &report.program)?;
    push_source(
        alloc,
        page,
        Role::Program,
        &report.program,
        texts.program,
        &told,
        1,
    )?;
    let told = told_lines(alloc, report, &report.proof)?;
    push_source(
        alloc,
        page,
        Role::Proof,
        &report.proof,
        texts.proof,
        &told,
        proof.first,
    )
}

fn push_failures(
    alloc: Global,
    page: &mut Page,
    report: &Report,
    proof: ProofPlace<'_>,
) -> Result<(), Memory> {
    if report.failures.is_empty() {
        return Ok(());
    }
    page.markup("<h2>Conditions that fail</h2>\n")?;
    for failure in &report.failures {
        push_failure(alloc, page, proof, failure)?;
    }
    Ok(())
}

/// The page of a proof: its report, the texts that it is of, and a drawing where there is one.
pub fn proof_page(
    alloc: Global,
    report: &Report,
    texts: &PageTexts<'_>,
) -> Result<Vec<u8>, Memory> {
    let title = headline(alloc, report)?;
    let proof = proof_place(alloc, &report.program, &report.proof, texts.proof)?;
    let mut page = Page::new(alloc);
    push_head(&mut page, &title)?;
    push_headline(&mut page, report.failing == 0, &title)?;
    page.markup("<main>\n<section>\n")?;
    push_texts(alloc, &mut page, report, texts, proof)?;
    push_drawing(alloc, &mut page, texts.drawing)?;
    page.markup("</section>\n<section>\n")?;
    push_steps(&mut page, &report.steps)?;
    push_failures(alloc, &mut page, report, proof)?;
    page.markup("</section>\n</main>\n")?;
    push_end(&mut page)?;
    Ok(page.finish())
}
