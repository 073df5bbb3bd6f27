//! States before and behind a step, as a table in which what changed stands out.

use crate::page::Page;
use proof_reports::Row;
use st_memory::Memory;

fn push_row(page: &mut Page, row: &Row, stepped: bool) -> Result<(), Memory> {
    if row.changed {
        page.markup("<tr class=\"changed\">")?;
    } else {
        page.markup("<tr>")?;
    }
    page.inside("<td>", &row.name, "</td>")?;
    page.inside("<td>", &row.before, "</td>")?;
    if stepped {
        page.inside("<td>", row.after.as_deref().unwrap_or(""), "</td>")?;
        page.markup(if row.changed {
            "<td class=\"bad\">←</td>"
        } else {
            "<td></td>"
        })?;
    }
    page.markup("</tr>\n")
}

/// Appends a table of states; nothing where there is none.
pub(crate) fn push_states(page: &mut Page, rows: &[Row]) -> Result<(), Memory> {
    if rows.is_empty() {
        return Ok(());
    }
    let stepped = rows.iter().any(|row| row.after.is_some());
    if stepped {
        page.markup(
            "<div class=\"scroll\"><table>\n<tr><th></th><th>before</th><th>behind</th><th></th></tr>\n",
        )?;
    } else {
        page.markup("<div class=\"scroll\"><table>\n<tr><th></th><th>state</th></tr>\n")?;
    }
    for row in rows {
        push_row(page, row, stepped)?;
    }
    page.markup("</table></div>\n")
}
