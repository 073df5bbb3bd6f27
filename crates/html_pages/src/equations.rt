//! The page of the equations that were found for a program.

use crate::frame::{push_end, push_head, push_headline};
use crate::page::Page;
use crate::sources::{Role, push_source};
use proof_reports::{Equation, EquationReport};
use st_memory::Memory;
use std::alloc::Global;

fn push_equation(page: &mut Page, equation: &Equation) -> Result<(), Memory> {
    match &equation.text {
        Some(text) => page.inside("<pre>", text, "</pre>\n"),
        None => page.inside(
            "<p class=\"faint\">left out: <code>",
            &equation.name,
            "</code></p>\n",
        ),
    }
}

/// Whether some step says what value a variable has at places, rather than a sum; its name tells.
fn has_facts(report: &EquationReport) -> bool {
    report
        .equations
        .iter()
        .any(|step| step.name.starts_with("fact"))
}

/// How many equations there are, and facts among them.
fn title(alloc: Global, report: &EquationReport) -> Result<String, Memory> {
    let program = &report.program;
    let count = report.equations.len();
    if has_facts(report) {
        return Ok(format!(in alloc; "{program}: {count} invariants that hold on every run")?);
    }
    if count == 1 {
        return Ok(format!(in alloc; "{program}: an equation that holds on every run")?);
    }
    Ok(format!(in alloc; "{program}: {count} equations that hold on every run")?)
}

/// The page of the equations of a program: the report, and the program's text.
pub fn equation_page(
    alloc: Global,
    report: &EquationReport,
    program: &[u8],
) -> Result<Vec<u8>, Memory> {
    let title = title(alloc, report)?;
    let mut page = Page::new(alloc);
    push_head(&mut page, &title)?;
    push_headline(&mut page, !report.equations.is_empty(), &title)?;
    page.markup("<main>\n<section>\n")?;
    push_source(
        alloc,
        &mut page,
        Role::Program,
        &report.program,
        program,
        &[],
        1,
    )?;
    page.markup("</section>\n<section>\n")?;
    page.markup(if has_facts(report) {
        "<h2>Equations and facts</h2>\n"
    } else {
        "<h2>Equations</h2>\n"
    })?;
    for equation in &report.equations {
        push_equation(&mut page, equation)?;
    }
    page.markup("</section>\n</main>\n")?;
    push_end(&mut page)?;
    Ok(page.finish())
}
