//! The page of a run that was played: what each goal comes to on it, and its states with what changed.

use crate::frame::{push_end, push_head, push_headline};
use crate::page::Page;
use crate::proofs::PageTexts;
use crate::sources::{Role, proof_place, push_link, push_source};
use proof_reports::{Cell, GoalReport, Position, RunReport};
use st_memory::Memory;
use std::alloc::Global;

fn push_goal(page: &mut Page, goal: &GoalReport) -> Result<(), Memory> {
    page.markup("<tr><td>")?;
    push_link(page, Role::Proof, goal.line)?;
    page.text(&goal.name)?;
    page.inside("</a></td><td>", &goal.kind, "</td>")?;
    let holds = goal.at.is_none();
    page.markup(if holds {
        "<td class=\"good\">"
    } else {
        "<td class=\"bad\">"
    })?;
    page.text(&goal.verdict)?;
    if let Some(at) = goal.at {
        page.markup(" at <a href=\"#position-")?;
        page.number(at)?;
        page.markup("\">")?;
        page.number(at)?;
        page.markup("</a>")?;
    }
    page.markup("</td></tr>\n")
}

fn push_goals(page: &mut Page, goals: &[GoalReport]) -> Result<(), Memory> {
    page.markup(
        "<h2>Goals</h2>\n<div class=\"scroll\"><table>\n<tr><th>goal</th><th></th><th>on this run</th></tr>\n",
    )?;
    for goal in goals {
        push_goal(page, goal)?;
    }
    page.markup("</table></div>\n")
}

fn push_state(page: &mut Page, cells: &[Cell]) -> Result<(), Memory> {
    for cell in cells {
        page.markup(if cell.changed { "<td><b>" } else { "<td>" })?;
        page.text(&cell.value)?;
        page.markup(if cell.changed { "</b></td>" } else { "</td>" })?;
    }
    Ok(())
}

fn push_move(page: &mut Page, position: &Position) -> Result<(), Memory> {
    page.markup("<td>")?;
    if let Some(taken) = &position.taken {
        match &position.spot {
            Some(spot) => {
                push_link(page, Role::Program, spot.line)?;
                page.text(taken)?;
                page.markup("</a>")?;
            }
            None => page.text(taken)?,
        }
    }
    page.markup("</td>")
}

fn push_position(page: &mut Page, position: &Position) -> Result<(), Memory> {
    page.markup("<tr id=\"position-")?;
    page.number(position.position)?;
    page.markup("\"><td class=\"faint\">")?;
    page.number(position.position)?;
    page.markup("</td>")?;
    push_state(page, &position.state)?;
    push_move(page, position)?;
    page.markup("</tr>\n")
}

/// Appends the positions, under the names of what is shown of each.
fn push_positions(page: &mut Page, positions: &[Position]) -> Result<(), Memory> {
    page.markup("<h2>The run</h2>\n<div class=\"scroll\"><table>\n<tr><th></th>")?;
    if let Some(first) = positions.first() {
        for cell in &first.state {
            page.inside("<th>", &cell.name, "</th>")?;
        }
    }
    page.markup("<th>move</th></tr>\n")?;
    for position in positions {
        push_position(page, position)?;
    }
    page.markup("</table></div>\n")
}

/// The lines of the program whose statements the run takes.
fn taken_lines(alloc: Global, report: &RunReport) -> Result<Vec<u64>, Memory> {
    let mut lines = Vec::new(alloc);
    for position in &report.positions {
        if let Some(spot) = &position.spot {
            lines.push(spot.line)?;
        }
    }
    Ok(lines)
}

/// The page of a run: its report, and the texts that it is of.
pub fn run_page(
    alloc: Global,
    report: &RunReport,
    texts: &PageTexts<'_>,
) -> Result<Vec<u8>, Memory> {
    let good = report.goals.iter().all(|goal| goal.at.is_none());
    let title = format!(in alloc; "A run of {}", report.program)?;
    let mut page = Page::new(alloc);
    push_head(&mut page, &title)?;
    push_headline(&mut page, good, &title)?;
    page.markup("<main>\n<section>\n")?;
    push_goals(&mut page, &report.goals)?;
    push_positions(&mut page, &report.positions)?;
    page.markup("</section>\n<section>\n")?;
    let taken = taken_lines(alloc, report)?;
    push_source(
        alloc,
        &mut page,
        Role::Program,
        &report.program,
        texts.program,
        &taken,
        1,
    )?;
    let proof = proof_place(alloc, &report.program, &report.proof, texts.proof)?;
    push_source(
        alloc,
        &mut page,
        Role::Proof,
        &report.proof,
        texts.proof,
        &[],
        proof.first,
    )?;
    page.markup("</section>\n</main>\n")?;
    push_end(&mut page)?;
    Ok(page.finish())
}
