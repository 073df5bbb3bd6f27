//! The steps of a proof with their verdicts, as a table. The verdict stands in front, so that it is seen on a narrow page too.

use crate::page::Page;
use crate::sources::{Role, push_link};
use proof_reports::StepReport;
use st_memory::Memory;

fn push_using(page: &mut Page, names: &[String]) -> Result<(), Memory> {
    for (place, name) in names.iter().enumerate() {
        if 0 < place {
            page.markup(", ")?;
        }
        page.text(name)?;
    }
    Ok(())
}

fn push_verdict(page: &mut Page, step: &StepReport) -> Result<(), Memory> {
    let class = if step.failing == 0 {
        "<td class=\"good\">"
    } else {
        "<td class=\"bad\">"
    };
    page.inside(class, &step.verdict, "</td>")
}

fn push_step(page: &mut Page, step: &StepReport) -> Result<(), Memory> {
    page.markup("<tr><td>")?;
    push_link(page, Role::Proof, step.line)?;
    page.text(&step.name)?;
    page.markup("</a></td>")?;
    push_verdict(page, step)?;
    page.inside("<td>", &step.kind, "</td>")?;
    page.inside("<td>", &step.rule, "</td><td>")?;
    push_using(page, &step.using)?;
    page.markup("</td><td>")?;
    page.number(step.conditions)?;
    page.markup("</td></tr>\n")
}

/// Appends the steps.
pub(crate) fn push_steps(page: &mut Page, steps: &[StepReport]) -> Result<(), Memory> {
    page.markup(
        "<h2>Steps</h2>\n<div class=\"scroll\"><table>\n<tr><th>step</th><th>verdict</th><th></th><th>rule</th><th>using</th><th>conditions</th></tr>\n",
    )?;
    for step in steps {
        push_step(page, step)?;
    }
    page.markup("</table></div>\n")
}
