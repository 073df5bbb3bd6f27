//! What the pages say of a word, and which words they speak of.

use crate::faults_page::FAULTS;
use crate::marks::{
    Line, cell_is, entry_has, entry_pieces, first_cell, heading_has, is_word, line_of,
};
use crate::statuses_page::STATUSES;
use std::alloc::{AllocError, Global};
use strsim::damerau_levenshtein;

static PAGES: [&str; 2] = [STATUSES, FAULTS];

/// What is being said while a page is gone through.
#[derive(Clone, Copy)]
struct Place<'a> {
    heading: &'a str,
    /// Whether the section speaks of the word, and whether the entry does.
    in_section: bool,
    in_entry: bool,
}

/// The cells of a row, one behind the other.
fn push_row(out: &mut String, row: &str) -> Result<(), AllocError> {
    for cell in row.split('|') {
        let cell = cell.trim();
        if !cell.is_empty() {
            out.push_str(cell)?;
            out.push_str("\n")?;
        }
    }
    out.push_str("\n")
}

fn push_line(out: &mut String, line: &str) -> Result<(), AllocError> {
    out.push_str(line)?;
    out.push_str("\n")
}

fn said_heading<'a>(
    out: &mut String,
    heading: &'a str,
    word: &str,
) -> Result<Place<'a>, AllocError> {
    let in_section = heading_has(heading, word);
    if in_section {
        push_line(out, heading)?;
    }
    Ok(Place {
        heading,
        in_section,
        in_entry: false,
    })
}

fn said_entry<'a>(
    out: &mut String,
    place: Place<'a>,
    entry: &str,
    word: &str,
) -> Result<Place<'a>, AllocError> {
    let in_entry = entry_has(entry, word);
    if in_entry && !place.in_section {
        push_line(out, place.heading)?;
        out.push_str("\n")?;
    }
    if in_entry || place.in_section {
        push_line(out, entry)?;
    }
    Ok(Place {
        heading: place.heading,
        in_section: place.in_section,
        in_entry,
    })
}

/// The place behind a line, which is said where it speaks of the word.
fn said_line<'a>(
    out: &mut String,
    place: Place<'a>,
    line: Line<'a>,
    word: &str,
) -> Result<Place<'a>, AllocError> {
    match line {
        Line::Heading(heading) => said_heading(out, heading, word),
        Line::Entry(entry) => said_entry(out, place, entry, word),
        Line::Row(row) => {
            if place.in_section || cell_is(first_cell(row), word) {
                push_row(out, row)?;
            }
            Ok(place)
        }
        Line::Other(text) => {
            if place.in_section || place.in_entry {
                push_line(out, text)?;
            }
            Ok(place)
        }
    }
}

fn push_said(out: &mut String, page: &'static str, word: &str) -> Result<(), AllocError> {
    let mut place = Place {
        heading: "",
        in_section: false,
        in_entry: false,
    };
    for text in page.lines() {
        place = said_line(out, place, line_of(text), word)?;
    }
    Ok(())
}

/// All that the pages say of a word; nothing where they don't speak of it.
pub fn said_of(alloc: Global, word: &str) -> Result<Option<String>, AllocError> {
    let mut out = String::new(alloc);
    for page in PAGES {
        push_said(&mut out, page, word)?;
    }
    if out.is_empty() {
        Ok(None)
    } else {
        Ok(Some(out))
    }
}

fn push_known<'a>(words: &mut Vec<&'a str>, word: &'a str) -> Result<(), AllocError> {
    if is_word(word) && !words.contains(&word) {
        words.push(word)?;
    }
    Ok(())
}

fn push_known_of<'a>(words: &mut Vec<&'a str>, line: Line<'a>) -> Result<(), AllocError> {
    match line {
        Line::Entry(entry) => {
            for piece in entry_pieces(entry) {
                push_known(words, piece)?;
            }
            Ok(())
        }
        Line::Row(row) => push_known(words, first_cell(row)),
        Line::Heading(_) | Line::Other(_) => Ok(()),
    }
}

/// The words that the pages speak of, each once, in their order. The numbers of statuses are left out.
pub fn known_words(alloc: Global) -> Result<Vec<&'static str>, AllocError> {
    let mut words = Vec::new(alloc);
    for page in PAGES {
        for text in page.lines() {
            push_known_of(&mut words, line_of(text))?;
        }
    }
    Ok(words)
}

/// The word of the pages that is nearest to a word, if one is near enough to be meant.
pub fn nearest_word(alloc: Global, word: &str) -> Result<Option<&'static str>, AllocError> {
    let mut nearest = None;
    let mut least = 3;
    for known in known_words(alloc)? {
        let distance = damerau_levenshtein(alloc, known, word)?;
        if distance < least {
            least = distance;
            nearest = Some(known);
        }
    }
    Ok(nearest)
}
