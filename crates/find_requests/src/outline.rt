//! Where the steps of a proof text stand, and what each of them asks for. Nothing is judged here: a text that no script spells is
//! refused by the reader of scripts, which goes over the same steps.

use st_memory::Memory;
use st_reading::{Mark, Sign, advance, ahead, is, name_ahead};
use st_tokens::{Token, Tokens};
use std::alloc::Global;

/// What a step asks for.
#[derive(Clone, Copy, Debug, PartialEq, Eq)]
pub enum Asks {
    /// Nothing: it says how its goal is proved.
    Nothing,
    /// That its goal, an invariance without `by` and `using`, be proved.
    Invariance,
    /// That a chain be found for its response, which is `by find`.
    Chain,
    /// That levels be found for its waiting-for, which is `by find`, or has neither `by` nor `using`.
    Levels,
}

/// Where a step stands in its text: byte offsets from 0.
#[derive(Clone, Copy, Debug)]
pub struct Extent<'a> {
    /// Its first byte.
    pub start: usize,
    /// The byte behind the last token before its semicolon.
    pub body: usize,
    /// The byte behind its semicolon.
    pub end: usize,
    pub asks: Asks,
    /// The tokens from the step's name on.
    pub tokens: Tokens<'a>,
}

impl Extent<'_> {
    /// Whether a byte of the step stands at a place.
    pub fn has(&self, place: usize) -> bool {
        self.start <= place && place < self.end
    }
}

/// What was seen of a step, outside brackets and braces.
#[derive(Drop)]
struct Seen {
    depth: usize,
    rule: bool,
    behind_by: bool,
    find: bool,
    /// Whether `by find` were the last two tokens.
    ends_by_find: bool,
}

impl Seen {
    /// Takes the next token in.
    fn note(&mut self, sign: Sign, text: &[u8]) {
        if is(sign, Mark::OpenBlock) || is(sign, Mark::OpenBrace) {
            self.depth = self.depth.saturating_add(1);
        } else if is(sign, Mark::CloseBlock) || is(sign, Mark::CloseBrace) {
            self.depth = self.depth.saturating_sub(1);
        } else if is(sign, Mark::By) || is(sign, Mark::Using) {
            self.rule = true;
        }
        self.ends_by_find = self.behind_by && text == b"find".as_slice();
        self.find = self.find || self.ends_by_find;
        self.behind_by = is(sign, Mark::By);
    }

    /// What a step asks for that begins with this sign.
    fn asks(&self, claim: Sign) -> Asks {
        if is(claim, Mark::Invariant) && !self.rule {
            Asks::Invariance
        } else if is(claim, Mark::Response) && self.find {
            Asks::Chain
        } else if is(claim, Mark::Waiting) && (!self.rule || self.ends_by_find) {
            Asks::Levels
        } else {
            Asks::Nothing
        }
    }
}

/// The byte behind a token.
pub(crate) fn end_of(token: &Token<'_>) -> usize {
    (token.start as usize).saturating_add(token.text.len())
}

/// The step that begins at the next token, up to its semicolon; `None` where the text ends before one, or no token stands there.
fn next_step<'a>(tokens: &mut Tokens<'a>, most: usize) -> Option<Extent<'a>> {
    let claim = ahead(tokens);
    let first = tokens.next().ok()??;
    let behind = *tokens;
    let mut seen = Seen {
        depth: 0,
        rule: false,
        behind_by: false,
        find: false,
        ends_by_find: false,
    };
    let mut body = end_of(&first);
    for _ in 0..most {
        let sign = ahead(tokens);
        let text = name_ahead(tokens).text;
        let token = tokens.next().ok()??;
        if seen.depth == 0 && is(sign, Mark::Semicolon) {
            return Some(Extent {
                start: first.start as usize,
                body,
                end: end_of(&token),
                asks: seen.asks(claim),
                tokens: behind,
            });
        }
        seen.note(sign, text);
        body = end_of(&token);
    }
    None
}

/// The steps of a text in order, up to its end or to the first that has no end. Each token is looked at once.
pub fn step_extents<'a>(alloc: Global, text: &'a [u8]) -> Result<Vec<Extent<'a>>, Memory> {
    let mut tokens = Tokens::new(text);
    let mut steps = Vec::new(alloc);
    for _ in 0..text.len() {
        let Some(step) = next_step(&mut tokens, text.len()) else {
            break;
        };
        steps.push(step)?;
    }
    Ok(steps)
}
