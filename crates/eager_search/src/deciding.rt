//! Problems under one decision more. Each conjunct with a decided literal is simplified again.

use crate::items::{Item, named};
use crate::limits::is_modest;
use crate::literals::{is_refuted, touches};
use crate::search::{Node, Search};
use crate::stop::Stop;
use control_states::Alternative;
use hint_index::mixed;
use st_form::Form;
use std::alloc::Global;

/// What is decided of components and boolean variables, and what the last decision made of the conjuncts.
#[derive(Drop)]
pub(crate) struct Decided {
    pub(crate) cases: Vec<Option<Alternative>>,
    pub(crate) truths: Vec<Option<bool>>,
    /// A word for the decision, for names.
    word: u64,
    made: Made,
}

/// The conjuncts that were made, in order, and of each conjunct how many there are in its place, or none where it stays.
#[derive(Drop)]
struct Made {
    forms: Vec<Form>,
    counts: Vec<Option<usize>>,
    /// The place of a conjunct that is false.
    refuted: Option<usize>,
}

/// Puts the conjuncts that a simplified formula is behind others. None where it is false.
fn push_parts(forms: &mut Vec<Form>, form: Form) -> Result<Option<usize>, Stop> {
    match form {
        Form::True => Ok(Some(0)),
        Form::False => Ok(None),
        Form::And(mut parts) => {
            let count = parts.len();
            forms.append(&mut parts)?;
            Ok(Some(count))
        }
        other => {
            forms.push(other)?;
            Ok(Some(1))
        }
    }
}

/// Puts what becomes of a conjunct behind others. None where it is false.
fn push_simplified(
    alloc: Global,
    forms: &mut Vec<Form>,
    form: &Form,
    truths: &[Option<bool>],
    places: &[Option<bool>],
) -> Result<Option<usize>, Stop> {
    if !is_modest(form) {
        return Err(Stop::Unfound);
    }
    let simple = form.simplified(alloc, truths, places, true)?;
    push_parts(forms, simple)
}

/// The place of a conjunct that is a literal and false.
fn first_refuted(
    items: &[Item],
    truths: &[Option<bool>],
    places: &[Option<bool>],
) -> Option<usize> {
    for (place, item) in items.iter().enumerate() {
        if is_refuted(item.form, truths, places) {
            return Some(place);
        }
    }
    None
}

/// What decisions make of conjuncts, up to one that is false. Literals are looked at first, as they cost nothing.
fn made_of(
    alloc: Global,
    items: &[Item],
    truths: &[Option<bool>],
    places: &[Option<bool>],
) -> Result<Made, Stop> {
    let mut made = Made {
        forms: Vec::new(alloc),
        counts: Vec::new(alloc),
        refuted: first_refuted(items, truths, places),
    };
    if made.refuted.is_some() {
        return Ok(made);
    }
    for (place, item) in items.iter().enumerate() {
        if touches(item.form, truths, places) {
            let count = push_simplified(alloc, &mut made.forms, item.form, truths, places)?;
            if count.is_none() {
                made.refuted = Some(place);
                return Ok(made);
            }
            made.counts.push(count)?;
        } else {
            made.counts.push(None)?;
        }
    }
    Ok(made)
}

/// A problem with a component decided.
pub(crate) fn with_case(
    alloc: Global,
    search: &Search,
    node: Node,
    component: u32,
    to: Alternative,
) -> Result<Decided, Stop> {
    let mut cases = Vec::from_slice(alloc, node.cases)?;
    if let Some(case) = cases.get_mut(component as usize) {
        *case = Some(to);
    }
    let truths = Vec::from_slice(alloc, node.truths)?;
    let places = search.components.places(alloc, &cases)?;
    let made = made_of(alloc, node.items, &truths, &places)?;
    let at = match to {
        Alternative::Location(location) => mixed(2, u64::from(location)),
        Alternative::Inside(location) => mixed(3, u64::from(location)),
    };
    Ok(Decided {
        cases,
        truths,
        word: mixed(at, u64::from(component)),
        made,
    })
}

/// A problem with a boolean variable decided.
pub(crate) fn with_truth(
    alloc: Global,
    search: &Search,
    node: Node,
    var: u32,
    to: bool,
) -> Result<Decided, Stop> {
    let cases = Vec::from_slice(alloc, node.cases)?;
    let mut truths = Vec::from_slice(alloc, node.truths)?;
    if let Some(truth) = truths.get_mut(var as usize) {
        *truth = Some(to);
    }
    let places = search.components.places(alloc, &cases)?;
    let made = made_of(alloc, node.items, &truths, &places)?;
    Ok(Decided {
        cases,
        truths,
        word: mixed(mixed(4, u64::from(var)), u64::from(to)),
        made,
    })
}

impl Decided {
    /// The place of a conjunct that is false now.
    pub(crate) fn refuted(&self) -> Option<usize> {
        self.made.refuted
    }

    /// The conjuncts under the decision.
    pub(crate) fn items<'a>(
        &'a self,
        alloc: Global,
        items: &[Item<'a>],
    ) -> Result<Vec<Item<'a>>, Stop> {
        let mut out = Vec::with_capacity(alloc, items.len())?;
        let mut forms = self.made.forms.iter();
        for (place, item) in items.iter().enumerate() {
            let count = self.made.counts.get(place).copied().flatten();
            match count {
                None => out.push(Item {
                    name: item.name,
                    form: item.form,
                    from: place,
                    new: false,
                })?,
                Some(count) => {
                    for k in 0..count {
                        if let Some(form) = forms.next() {
                            out.push(Item {
                                name: named(item.name, self.word, k),
                                form,
                                from: place,
                                new: true,
                            })?;
                        }
                    }
                }
            }
        }
        Ok(out)
    }
}
