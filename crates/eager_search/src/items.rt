//! Conjuncts of a problem, lent, with names that stay while others are divided.
//!
//! A certificate counts lines and disjunctions among the conjuncts that are there. A plan of one names them, so that it stays right where
//! a division round it is left out. A conjunct's name is made of the name of the one that it came of and of how it came of it: the same
//! division gives the same name again. Names are hashes; where two are equal, the certificate is found not to be valid.

use hint_index::{line_mixed, mixed};
use st_form::Form;
use st_linear::Lin;
use st_memory::Memory;
use std::alloc::Global;
use std::slice;

/// A conjunct with its name, and the place of the one that it came of among the conjuncts before the last division. It is new where that
/// division made it.
#[derive(Clone, Copy)]
pub(crate) struct Item<'a> {
    pub(crate) name: u64,
    pub(crate) form: &'a Form,
    pub(crate) from: usize,
    pub(crate) new: bool,
}

/// The parts of a conjunction, or the formula alone.
pub(crate) fn opened(form: &Form) -> &[Form] {
    match form {
        Form::And(parts) => parts.as_slice(),
        _ => slice::from_ref(form),
    }
}

/// The name of the k-th conjunct that comes of another one by a division.
pub(crate) fn named(name: u64, division: u64, k: usize) -> u64 {
    mixed(mixed(name, division), k as u64)
}

/// The name of a cut's row, or of the denied one.
pub(crate) fn cut_name(form: &Lin, plus: bool) -> u64 {
    mixed(line_mixed(6, form), u64::from(plus))
}

/// Conjuncts as they are, as those that came of themselves.
pub(crate) fn push_kept<'a>(
    out: &mut Vec<Item<'a>>,
    items: &[Item<'a>],
    first: usize,
) -> Result<(), Memory> {
    for (k, item) in items.iter().enumerate() {
        out.push(Item {
            name: item.name,
            form: item.form,
            from: first.saturating_add(k),
            new: false,
        })?;
    }
    Ok(())
}

/// New conjuncts that come of the one with this name at a place.
pub(crate) fn push_new<'a>(
    out: &mut Vec<Item<'a>>,
    forms: &'a [Form],
    name: u64,
    from: usize,
) -> Result<(), Memory> {
    for (k, form) in forms.iter().enumerate() {
        out.push(Item {
            name: named(name, 1, k),
            form,
            from,
            new: true,
        })?;
    }
    Ok(())
}

/// The conjuncts that a condition begins with.
pub(crate) fn first_items(alloc: Global, forms: &[Form]) -> Result<Vec<Item<'_>>, Memory> {
    let mut out = Vec::with_capacity(alloc, forms.len())?;
    for (k, form) in forms.iter().enumerate() {
        out.push(Item {
            name: named(0, 0, k),
            form,
            from: k,
            new: false,
        })?;
    }
    Ok(out)
}
