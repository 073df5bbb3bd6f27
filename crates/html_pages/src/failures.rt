//! Conditions that aren't decided valid.

use crate::page::Page;
use crate::sources::ProofPlace;
use crate::spots::push_spot;
use crate::states::push_states;
use crate::turns::push_turn;
use proof_reports::{Case, Failure};
use st_memory::Memory;
use std::alloc::Global;

fn push_cases(page: &mut Page, cases: &[Case]) -> Result<(), Memory> {
    if cases.is_empty() {
        return Ok(());
    }
    page.markup("<p>the step has to lead to one of these, and leads to none:</p>\n<ul>\n")?;
    for case in cases {
        page.markup("<li>")?;
        page.sentence(&case.meaning)?;
        for missing in &case.missing {
            page.inside("<br><code class=\"bad\">", missing, "</code>")?;
        }
        page.markup("</li>\n")?;
    }
    page.markup("</ul>\n")
}

fn push_broken(page: &mut Page, broken: &[String]) -> Result<(), Memory> {
    for part in broken {
        page.inside("<p class=\"bad\">false: <code>", part, "</code></p>\n")?;
    }
    Ok(())
}

fn push_exclusions(page: &mut Page, names: &[String]) -> Result<(), Memory> {
    for name in names {
        page.inside(
            "<p class=\"good\">excluded by <code>",
            name,
            "</code>: add <code>using ",
        )?;
        page.text(name)?;
        page.markup("</code></p>\n")?;
    }
    Ok(())
}

/// Appends the head of a condition, which opens and closes the rest.
fn push_summary(page: &mut Page, failure: &Failure) -> Result<(), Memory> {
    page.markup("<details open id=\"condition-")?;
    page.number(failure.number)?;
    page.markup("\"><summary><b>")?;
    page.number(failure.number)?;
    page.inside("</b> ", &failure.name, "</summary>\n<p>")?;
    page.sentence(&failure.title)?;
    page.markup("</p>\n")
}

/// Appends a condition. `proof` says where the proof stands.
pub(crate) fn push_failure(
    alloc: Global,
    page: &mut Page,
    proof: ProofPlace<'_>,
    failure: &Failure,
) -> Result<(), Memory> {
    push_summary(page, failure)?;
    if !failure.words.is_empty() {
        page.markup("<p>")?;
        page.sentence(&failure.words)?;
        page.markup("</p>\n")?;
    }
    for spot in &failure.spots {
        push_spot(alloc, page, proof, spot)?;
    }
    push_states(page, &failure.state)?;
    push_broken(page, &failure.broken)?;
    push_cases(page, &failure.alternatives)?;
    push_exclusions(page, &failure.excluded_by)?;
    if let Some(turn) = &failure.turn {
        push_turn(page, turn)?;
    }
    page.markup("</details>\n")
}
