//! The texts of files, each line with its number and an anchor, and those marked in which something is told.

use crate::page::Page;
use source_lines::Lines;
use st_memory::Memory;
use std::alloc::Global;

/// Which of the two texts.
#[derive(Clone, Copy, Debug, PartialEq, Eq)]
pub(crate) enum Role {
    Program,
    Proof,
}

/// The beginning of the anchor of a line.
fn anchor(role: Role) -> &'static str {
    match role {
        Role::Program => "program-",
        Role::Proof => "proof-",
    }
}

/// Where the proof stands: its file, and its first line there. In one file with both texts the program stands in front of it.
#[derive(Clone, Copy)]
pub(crate) struct ProofPlace<'a> {
    file: &'a str,
    pub first: usize,
}

impl ProofPlace<'_> {
    /// Which of the two texts a line of a file is in.
    pub(crate) fn role(self, file: &str, line: u64) -> Role {
        if file == self.file && self.first as u64 <= line {
            Role::Proof
        } else {
            Role::Program
        }
    }
}

/// The first line in which there is more than blanks, and else the last.
fn first_line(alloc: Global, text: &[u8]) -> Result<usize, Memory> {
    let lines = Lines::new(alloc, text)?;
    for number in 1..lines.count() {
        if lines.line(number).iter().any(|byte| *byte != b' ') {
            return Ok(number);
        }
    }
    Ok(lines.count())
}

/// Where the proof stands, by the names of both files and its text: of one file with both texts, blanks stand before it.
pub(crate) fn proof_place<'a>(
    alloc: Global,
    program: &str,
    proof: &'a str,
    text: &[u8],
) -> Result<ProofPlace<'a>, Memory> {
    let first = if program == proof {
        first_line(alloc, text)?
    } else {
        1
    };
    Ok(ProofPlace { file: proof, first })
}

/// Appends a link to a line: its beginning, up to the text.
pub(crate) fn push_link(page: &mut Page, role: Role, line: u64) -> Result<(), Memory> {
    page.markup("<a href=\"#")?;
    page.markup(anchor(role))?;
    page.number(line)?;
    page.markup("\">")
}

fn push_line(
    page: &mut Page,
    role: Role,
    number: usize,
    marked: bool,
    text: &[u8],
) -> Result<(), Memory> {
    page.markup("<span class=\"line")?;
    if marked {
        page.markup(" spot")?;
    }
    page.markup("\" id=\"")?;
    page.markup(anchor(role))?;
    page.number(number as u64)?;
    page.markup("\"><span class=\"count\">")?;
    page.number(number as u64)?;
    page.markup("</span>")?;
    page.bytes(text)?;
    page.markup("</span>")
}

/// The lines that are told of, as marks by their numbers.
pub(crate) fn marks(alloc: Global, lines: &Lines<'_>, told: &[u64]) -> Result<Vec<bool>, Memory> {
    let mut marks = vec![in alloc; false; lines.count()]?;
    for line in told {
        if let Some(mark) = marks.get_mut((*line as usize).saturating_sub(1)) {
            *mark = true;
        }
    }
    Ok(marks)
}

/// Appends a file: its name, and its lines from the first on that is shown, of which those told of are marked.
pub(crate) fn push_source(
    alloc: Global,
    page: &mut Page,
    role: Role,
    name: &str,
    text: &[u8],
    told: &[u64],
    first: usize,
) -> Result<(), Memory> {
    let lines = Lines::new(alloc, text)?;
    let marks = marks(alloc, &lines, told)?;
    page.inside("<h2>", name, "</h2>\n<pre>")?;
    for (place, marked) in marks.iter().enumerate() {
        let number = place.saturating_add(1);
        let line = lines.line(number);
        if first <= number && (number < marks.len() || !line.is_empty()) {
            push_line(page, role, number, *marked, line)?;
        }
    }
    page.markup("</pre>\n")
}
