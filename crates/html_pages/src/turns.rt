//! Whose turn it is in a response: what is waited for, what may be done, and what the items ask for.

use crate::page::Page;
use proof_reports::{Item, Turn};
use st_memory::Memory;

fn push_items(page: &mut Page, items: &[Item]) -> Result<(), Memory> {
    page.markup(
        "<div class=\"scroll\"><table>\n<tr><th>item</th><th>formula</th><th>holds</th><th>rounds</th></tr>\n",
    )?;
    for item in items {
        page.markup(if item.holds {
            "<tr class=\"changed\"><td>"
        } else {
            "<tr><td>"
        })?;
        page.number(item.number)?;
        page.inside("</td><td>", &item.formula, "</td><td>")?;
        page.markup(if item.holds { "yes" } else { "no" })?;
        page.inside(
            "</td><td>",
            item.rounds.as_deref().unwrap_or(""),
            "</td></tr>\n",
        )?;
    }
    page.markup("</table></div>\n")
}

fn push_enabled(page: &mut Page, turn: &Turn) -> Result<(), Memory> {
    if turn.deadlock {
        return page.markup("<p class=\"bad\">deadlock: nothing is enabled in this state</p>\n");
    }
    if turn.enabled.is_empty() {
        return Ok(());
    }
    page.markup("<p>enabled in this state:")?;
    for name in &turn.enabled {
        page.inside(" <code>", name, "</code>")?;
    }
    page.markup("</p>\n")
}

/// Appends whose turn it is.
pub(crate) fn push_turn(page: &mut Page, turn: &Turn) -> Result<(), Memory> {
    if let Some(helper) = &turn.helper {
        page.inside("<p>waited for: <code>", helper, "</code></p>\n")?;
    }
    push_enabled(page, turn)?;
    if let Some(bound) = &turn.bound {
        page.inside(
            "<p>the bound gives <code>",
            bound,
            "</code> rounds here</p>\n",
        )?;
    }
    if turn.items.is_empty() {
        return Ok(());
    }
    push_items(page, &turn.items)
}
