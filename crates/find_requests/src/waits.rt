//! Waiting-fors whose levels are asked for: `p ==> qm wait .. wait q0 by find`, or the same without `by find`.

use crate::outline::end_of;
use crate::responses::{expect_find, own_name};
use assertions::read_form;
use proof_script::{ScriptFault, ScriptKind};
use st_form::Form;
use st_memory::Memory;
use st_program::NameTable;
use st_reading::{Mark, ahead, expect, is, place_of};
use st_tokens::{LimitKind, Tokens};
use std::alloc::Global;

/// As many formulas may be waited for in turn.
const MOST: usize = 64;

/// A waiting-for that waits for its levels.
#[derive(Drop)]
pub struct Staying {
    pub name: String,
    /// Where it is claimed.
    pub start: Form,
    /// What holds in turn from there on.
    pub forms: Vec<Form>,
    /// The texts of these, each on one line, without comments.
    pub texts: Vec<Vec<u8>>,
    /// The byte behind the last of them.
    pub end: usize,
}

/// The tokens up to a place as a text on one line, where what stands apart is parted by one blank; and the byte behind the last of them.
fn line_of(alloc: Global, from: Tokens<'_>, place: u64) -> Result<(Vec<u8>, usize), Memory> {
    let mut tokens = from;
    let mut out = Vec::new(alloc);
    let mut end = place_of(&tokens) as usize;
    for _ in 0..u32::MAX {
        if place_of(&tokens) >= place {
            break;
        }
        let Ok(Some(token)) = tokens.next() else {
            break;
        };
        if end < token.start as usize {
            out.push(b' ')?;
        }
        out.extend_from_slice(token.text)?;
        end = end_of(&token);
    }
    Ok((out, end))
}

impl Staying {
    /// Reads what is waited for next.
    fn read_next(
        &mut self,
        alloc: Global,
        names: &NameTable,
        tokens: &mut Tokens<'_>,
    ) -> Result<(), ScriptFault> {
        let before = *tokens;
        let form = read_form(alloc, tokens, names)?;
        if self.forms.len() >= MOST {
            let past = ScriptKind::Limit(LimitKind::Nodes);
            return Err(ScriptFault::At(past, place_of(&before)));
        }
        let (text, end) = line_of(alloc, before, place_of(tokens))?;
        self.forms.push(form)?;
        self.texts.push(text)?;
        self.end = end;
        Ok(())
    }

    /// Reads all that is waited for in turn.
    fn read_all(
        &mut self,
        alloc: Global,
        names: &NameTable,
        tokens: &mut Tokens<'_>,
    ) -> Result<(), ScriptFault> {
        self.read_next(alloc, names, tokens)?;
        expect(tokens, Mark::Wait)?;
        self.read_next(alloc, names, tokens)?;
        for _ in 0..MOST {
            if !is(ahead(tokens), Mark::Wait) {
                break;
            }
            expect(tokens, Mark::Wait)?;
            self.read_next(alloc, names, tokens)?;
        }
        Ok(())
    }
}

/// Reads a waiting-for from its name to its semicolon.
pub(crate) fn read_staying(
    alloc: Global,
    names: &NameTable,
    tokens: &mut Tokens<'_>,
) -> Result<Staying, ScriptFault> {
    let name = own_name(alloc, tokens)?;
    expect(tokens, Mark::Colon)?;
    let start = read_form(alloc, tokens, names)?;
    expect(tokens, Mark::Unless)?;
    let mut staying = Staying {
        name,
        start,
        forms: Vec::new(alloc),
        texts: Vec::new(alloc),
        end: 0,
    };
    staying.read_all(alloc, names, tokens)?;
    if is(ahead(tokens), Mark::By) {
        expect(tokens, Mark::By)?;
        expect_find(tokens)?;
    }
    expect(tokens, Mark::Semicolon)?;
    Ok(staying)
}
