//! A question with lemmas, which are given only as far as states ask for them.
//!
//! A state in which a lemma is false is no answer; so that lemma is given too, and the question is asked again. Most questions need few
//! lemmas, and those that were given are a small core of what the answer hangs on.

use crate::answer::{Answer, Why};
use crate::lemma::{Allowed, Lemma};
use crate::prover::{Asked, narrowed, question};
use crate::setting::Setting;
use control_cubes::State;
use st_form::{Condition, SharedForm};
use st_memory::Memory;
use std::alloc::Global;

/// As many lemmas are given at once where a question is too wide.
const MOST_AT_ONCE: usize = 60;

/// A question with the lemmas that were given so far, and whether lemmas were given at once.
#[derive(Drop)]
pub(crate) struct Posed {
    pub(crate) condition: Condition,
    used: Vec<u32>,
    whole: bool,
}

impl Posed {
    /// A question without lemmas.
    pub(crate) fn new(alloc: Global, forms: Vec<SharedForm>) -> Result<Posed, Memory> {
        Ok(Posed {
            condition: question(alloc, forms)?,
            used: Vec::new(alloc),
            whole: false,
        })
    }
}

/// Whether a lemma holds in a state.
pub(crate) fn holds(setting: &Setting<'_>, lemma: &Lemma, state: &State) -> bool {
    match &lemma.cube {
        Some(cube) => !cube.contains(state),
        None => state.satisfies(&setting.layout, lemma.form.get()),
    }
}

/// The first lemma that may be used and doesn't hold in the state.
fn first_broken(
    setting: &Setting<'_>,
    lemmas: &[Lemma],
    allowed: Allowed<'_>,
    state: &State,
) -> Option<usize> {
    for (number, lemma) in lemmas.iter().enumerate() {
        if allowed.has(number, lemma) && !holds(setting, lemma, state) {
            return Some(number);
        }
    }
    None
}

/// Gives a lemma too.
fn give(posed: &mut Posed, number: usize, lemma: &Lemma) -> Result<(), Memory> {
    posed.used.push(narrowed(number))?;
    posed.condition.given.push(lemma.form.share()?)?;
    Ok(())
}

/// Gives lemmas that weren't given, as far as there is room.
fn give_more(posed: &mut Posed, lemmas: &[Lemma], allowed: Allowed<'_>) -> Result<(), Memory> {
    for (number, lemma) in lemmas.iter().enumerate() {
        if posed.used.len() < MOST_AT_ONCE
            && allowed.has(number, lemma)
            && !posed.used.contains(&narrowed(number))
        {
            give(posed, number, lemma)?;
        }
    }
    Ok(())
}

/// What follows from the answer to a question: an answer, or that it is to be asked again with more lemmas.
pub(crate) fn after_asking(
    setting: &Setting<'_>,
    lemmas: &[Lemma],
    allowed: Allowed<'_>,
    posed: &mut Posed,
    asked: Asked,
) -> Result<Option<Answer>, Memory> {
    match asked {
        Asked::Never => Ok(Some(Answer::Never(std::mem::try_take(&mut posed.used)?))),
        Asked::State(state) => match first_broken(setting, lemmas, allowed, &state) {
            None => Ok(Some(Answer::State(state))),
            Some(number) => with_broken(lemmas, posed, number),
        },
        Asked::Unknown(why) => {
            if posed.whole || why == Why::Budget {
                return Ok(Some(Answer::Unknown(why)));
            }
            posed.whole = true;
            give_more(posed, lemmas, allowed)?;
            Ok(None)
        }
    }
}

/// Gives the lemma that is broken. One that was given already and is broken all the same makes the question too wide.
fn with_broken(
    lemmas: &[Lemma],
    posed: &mut Posed,
    number: usize,
) -> Result<Option<Answer>, Memory> {
    if posed.used.contains(&narrowed(number)) {
        return Ok(Some(Answer::Unknown(Why::Wide)));
    }
    if let Some(lemma) = lemmas.get(number) {
        give(posed, number, lemma)?;
    }
    Ok(None)
}
