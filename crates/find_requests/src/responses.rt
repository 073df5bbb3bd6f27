//! Responses whose chain is asked for: `p leads q by find`, or `p leads q within e by find`.

use assertions::{read_form, read_linear, text_of};
use proof_script::{ScriptFault, ScriptKind};
use st_form::{Form, Lin};
use st_program::NameTable;
use st_reading::{Mark, ahead, expect, is, name, place_of};
use st_tokens::Tokens;
use std::alloc::Global;

/// A response that waits for its chain.
#[derive(Drop)]
pub struct Leading {
    pub name: String,
    /// Where the wait begins.
    pub start: Form,
    /// Where it ends.
    pub goal: Form,
    /// The most rounds that it may take, where that is said.
    pub most: Option<Lin>,
    /// The byte at which what stands behind its goal begins.
    pub rule: usize,
}

/// The name of the step.
pub(crate) fn own_name(alloc: Global, tokens: &mut Tokens<'_>) -> Result<String, ScriptFault> {
    let word = name(tokens)?;
    match text_of(word.text) {
        Some(text) => Ok(String::from_str(alloc, text)?),
        None => Err(ScriptFault::Memory),
    }
}

/// The most rounds, where they are said.
fn most_rounds(
    alloc: Global,
    names: &NameTable,
    tokens: &mut Tokens<'_>,
) -> Result<Option<Lin>, ScriptFault> {
    if !is(ahead(tokens), Mark::Within) {
        return Ok(None);
    }
    expect(tokens, Mark::Within)?;
    Ok(Some(read_linear(alloc, tokens, names)?))
}

/// The word that stands for a rule; another name is a fault of the grammar.
pub(crate) fn expect_find(tokens: &mut Tokens<'_>) -> Result<(), ScriptFault> {
    let word = name(tokens)?;
    if word.text == b"find".as_slice() {
        Ok(())
    } else {
        Err(ScriptFault::At(ScriptKind::Syntax, word.place))
    }
}

/// Reads a response from its name to its semicolon.
pub(crate) fn read_leading(
    alloc: Global,
    names: &NameTable,
    tokens: &mut Tokens<'_>,
) -> Result<Leading, ScriptFault> {
    let name = own_name(alloc, tokens)?;
    expect(tokens, Mark::Colon)?;
    let start = read_form(alloc, tokens, names)?;
    expect(tokens, Mark::Leads)?;
    let goal = read_form(alloc, tokens, names)?;
    let rule = place_of(tokens) as usize;
    let most = most_rounds(alloc, names, tokens)?;
    expect(tokens, Mark::By)?;
    expect_find(tokens)?;
    expect(tokens, Mark::Semicolon)?;
    Ok(Leading {
        name,
        start,
        goal,
        most,
        rule,
    })
}
