//! Where a page speaks of a word: a heading that has it, a paragraph that begins with it in bold, or a row of a table whose
//! first cell is it.

/// What a line of a page is.
#[derive(Clone, Copy)]
pub enum Line<'a> {
    Heading(&'a str),
    /// The first line of a paragraph on the words that stand in bold at its beginning.
    Entry(&'a str),
    /// A row of a table, with its cells.
    Row(&'a str),
    Other(&'a str),
}

pub fn line_of(text: &str) -> Line<'_> {
    if text.starts_with('#') {
        return Line::Heading(text);
    }
    if text.starts_with("**`") {
        return Line::Entry(text);
    }
    if text.starts_with("| ") {
        return Line::Row(text);
    }
    Line::Other(text)
}

/// The first cell of a row, without the marks of code.
pub fn first_cell(row: &str) -> &str {
    let cell = match row.split('|').nth(1) {
        Some(cell) => cell,
        None => "",
    };
    cell.trim_matches(|c| c == ' ' || c == '`')
}

/// Whether a cell is the word, or begins with it, or is it behind a first word, as the name of a status behind its number.
pub fn cell_is(cell: &str, word: &str) -> bool {
    if cell == word {
        return true;
    }
    match cell.split_once(' ') {
        Some((first, rest)) => first == word || rest == word,
        None => false,
    }
}

/// The text in front of the colon that ends the words of an entry.
fn head_of(entry: &str) -> &str {
    match entry.split_once("**:") {
        Some((head, _)) => head,
        None => entry,
    }
}

/// The words that an entry begins with, as pieces among which there are signs too.
pub fn entry_pieces(entry: &str) -> std::str::Split<'_, char> {
    head_of(entry).split('`')
}

/// Whether a piece of an entry's beginning is a word and no sign between two.
pub fn is_word(piece: &str) -> bool {
    piece.starts_with(|c: char| c.is_ascii_alphabetic())
}

pub fn entry_has(entry: &str, word: &str) -> bool {
    is_word(word) && entry_pieces(entry).any(|piece| piece == word)
}

pub fn heading_has(heading: &str, word: &str) -> bool {
    heading.starts_with("## ") && heading.split(' ').any(|piece| piece == word)
}
