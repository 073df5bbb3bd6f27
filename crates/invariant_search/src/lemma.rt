//! Lemmas by number.

use control_cubes::Cube;
use st_form::SharedForm;

/// The level of lemmas that hold in each state of each run.
pub const ALWAYS: u32 = u32::MAX;

/// A formula that holds in all states that are reached by no more steps than its level says. Mostly it is the complement of a cube. A
/// lemma that a stronger one makes superfluous doesn't stand any longer, but keeps its number.
#[derive(Drop)]
pub struct Lemma {
    pub cube: Option<Cube>,
    pub form: SharedForm,
    pub level: u32,
    pub stands: bool,
}

/// Which lemmas an answer may use: those of a level and above, or those that are marked by number.
#[derive(Clone, Copy)]
pub enum Allowed<'a> {
    From(u32),
    Among(&'a [bool]),
}

impl Allowed<'_> {
    /// Whether the lemma with this number may be used.
    pub fn has(&self, number: usize, lemma: &Lemma) -> bool {
        match self {
            Allowed::From(level) => lemma.stands && lemma.level >= *level,
            Allowed::Among(marks) => lemma.stands && marks.get(number) == Some(&true),
        }
    }
}

/// Whether the lemmas with these numbers may be used.
pub(crate) fn are_allowed(lemmas: &[Lemma], allowed: Allowed<'_>, numbers: &[u32]) -> bool {
    for number in numbers {
        let place = *number as usize;
        match lemmas.get(place) {
            Some(lemma) if allowed.has(place, lemma) => {}
            _ => return false,
        }
    }
    true
}
