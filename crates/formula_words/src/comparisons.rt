//! Comparisons: a form that is at least 0, or is 0, is written with its positive terms on one side and its negative terms on the
//! other, the constant on the side where it isn't below 0.

use crate::phrases::{Bond, Phrase, constant};
use crate::sums::{has_side, side};
use crate::vocabulary::Vocabulary;
use st_form::Lin;
use st_memory::Memory;
use std::alloc::Global;

/// A form and its constant, with all signs turned where `turned` says so.
#[derive(Clone, Copy)]
struct Turned<'a> {
    entries: &'a [(u32, i128)],
    constant: i128,
    turned: bool,
}

fn negated(number: &i128) -> i128 {
    number.saturating_neg()
}

/// `left sign right`, where the left side has the terms of one sign and the right side those of the other.
fn compared(
    alloc: Global,
    words: &Vocabulary,
    form: &Turned<'_>,
    constants: (&i128, &i128),
    sign: &str,
    turned: bool,
) -> Result<Phrase, Memory> {
    let mut text = side(alloc, words, form.entries, turned, constants.0)?;
    let right = side(alloc, words, form.entries, !turned, constants.1)?;
    text.push_str(sign)?;
    text.push_str(right.as_str())?;
    Ok(Phrase {
        text,
        bond: Bond::Comparison,
    })
}

/// A variable's side alone against a number, which may be below 0.
fn against_number(
    alloc: Global,
    words: &Vocabulary,
    entries: &[(u32, i128)],
    negative: bool,
    sign: &str,
    number: &i128,
) -> Result<Phrase, Memory> {
    let mut text = side(alloc, words, entries, negative, &0)?;
    text.push_str(sign)?;
    let number = format!(in alloc; "{number}")?;
    text.push_str(number.as_str())?;
    Ok(Phrase {
        text,
        bond: Bond::Comparison,
    })
}

/// That a form is at least 0.
fn at_least(alloc: Global, words: &Vocabulary, form: &Turned<'_>) -> Result<Phrase, Memory> {
    let (more, less) = (form.turned, !form.turned);
    match (has_side(form.entries, more), has_side(form.entries, less)) {
        (false, false) => constant(alloc, form.constant >= 0),
        (true, false) => {
            let number = negated(&form.constant);
            against_number(alloc, words, form.entries, more, " >= ", &number)
        }
        (false, true) => {
            against_number(alloc, words, form.entries, less, " <= ", &form.constant)
        }
        (true, true) => ordered(alloc, words, form),
    }
}

/// The same where there are terms of both signs.
fn ordered(alloc: Global, words: &Vocabulary, form: &Turned<'_>) -> Result<Phrase, Memory> {
    let less = !form.turned;
    if form.constant == -1 {
        return compared(alloc, words, form, (&0, &0), " < ", less);
    }
    if form.constant < 0 {
        let number = negated(&form.constant);
        return compared(alloc, words, form, (&number, &0), " <= ", less);
    }
    compared(alloc, words, form, (&0, &form.constant), " <= ", less)
}

/// That a form is at least 0, or that it isn't: then its negative is at least 1.
pub(crate) fn row(
    alloc: Global,
    words: &Vocabulary,
    sum: &Lin,
    wanted: bool,
) -> Result<Phrase, Memory> {
    let constant = if wanted {
        sum.constant()
    } else {
        negated(&sum.constant()).saturating_sub(1)
    };
    let form = Turned {
        entries: sum.entries(),
        constant,
        turned: !wanted,
    };
    at_least(alloc, words, &form)
}

/// That a form is 0, or that it isn't. The first variable stands on the left.
pub(crate) fn equation(
    alloc: Global,
    words: &Vocabulary,
    sum: &Lin,
    wanted: bool,
) -> Result<Phrase, Memory> {
    let sign = if wanted { " = " } else { " != " };
    let Some(first) = sum.entries().first() else {
        return constant(alloc, (sum.constant() == 0) == wanted);
    };
    let turned = first.1 < 0;
    let form = Turned {
        entries: sum.entries(),
        constant: if turned {
            negated(&sum.constant())
        } else {
            sum.constant()
        },
        turned,
    };
    if !has_side(form.entries, !turned) {
        let number = negated(&form.constant);
        return against_number(alloc, words, form.entries, turned, sign, &number);
    }
    if form.constant < 0 {
        let number = negated(&form.constant);
        return compared(alloc, words, &form, (&0, &number), sign, turned);
    }
    compared(alloc, words, &form, (&form.constant, &0), sign, turned)
}
