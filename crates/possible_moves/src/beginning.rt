//! A schedule without moves, to begin with where none is given: what the initial condition says of one variable alone is done, and
//! of what it says nothing the value is 0 or `false`. Whether a run begins so is for whoever plays it to say.

use crate::schedules::beginning_text;
use posed_conditions::TranslatedProgram;
use run_reports::translated_program;
use st_form::{Form, Lin, Variable};
use st_memory::Memory;
use st_program::Datum;
use std::alloc::Global;
use text_words::text_words;

/// The number of a variable that is a number.
fn number_of(store: &[Datum], variable: u32) -> Option<i128> {
    match store.get(variable as usize) {
        Some(Datum::Number(number)) => Some(*number),
        _ => None,
    }
}

fn put(store: &mut [Datum], variable: u32, datum: Datum) {
    if let Some(slot) = store.get_mut(variable as usize) {
        *slot = datum;
    }
}

/// The number for which `by` times it and `constant` are 0, rounded up where `by` is positive, and else down; so it is the one
/// nearest to what a row forbids.
fn root(by: i128, constant: i128) -> Option<i128> {
    if 0 < by {
        constant.checked_div_euclid(by)?.checked_neg()
    } else {
        constant.checked_div_euclid(by.checked_neg()?)
    }
}

/// Whether the sum of a number's multiple and a constant is below 0.
fn is_below(by: i128, number: i128, constant: i128) -> bool {
    match by.checked_mul(number) {
        Some(product) => product.saturating_add(constant) < 0,
        None => false,
    }
}

/// Brings a variable to what a sum of it alone asks for: that it is 0, or at least 0.
fn settle_sum(store: &mut [Datum], sum: &Lin, is_equation: bool) {
    let [(variable, by)] = sum.entries() else {
        return;
    };
    let constant = sum.constant();
    if let (Some(number), Some(root)) = (number_of(store, *variable), root(*by, constant)) {
        if is_equation || is_below(*by, number, constant) {
            put(store, *variable, Datum::Number(root));
        }
    }
}

/// Does what a formula says of one variable alone.
#[cycle(settle)]
fn settle(form: &Form, store: &mut [Datum]) {
    match form {
        Form::And(forms) => settle_all(forms, store),
        Form::Row(sum) => settle_sum(store, sum, false),
        Form::Equal(sum) => settle_sum(store, sum, true),
        Form::BoolVar(variable) => put(store, *variable, Datum::Truth(true)),
        Form::Not(_) | Form::Or(_) => {}
        Form::True | Form::False | Form::At(_) => {}
    }
}

#[cycle(settle)]
fn settle_all(forms: &[Form], store: &mut [Datum]) {
    for form in forms {
        settle(form, store);
    }
}

/// 0 for each number, and `false` for each truth value.
fn blank(alloc: Global, variables: &[Variable]) -> Result<Vec<Datum>, Memory> {
    let mut store = Vec::new(alloc);
    for variable in variables {
        if variable.truth {
            store.push(Datum::Truth(false))?;
        } else {
            store.push(Datum::Number(0))?;
        }
    }
    Ok(store)
}

fn settled(alloc: Global, source: &TranslatedProgram) -> Result<Vec<Datum>, Memory> {
    let program = &source.program;
    let mut store = blank(alloc, &program.variables)?;
    settle(&program.initial, &mut store);
    Ok(store)
}

/// A schedule without moves for the program of a text; one of nothing where the text is refused.
pub fn first_schedule(alloc: Global, program: &[u8]) -> Result<String, Memory> {
    match translated_program(alloc, program)? {
        Some(source) => {
            let words = text_words(alloc, &source, program)?;
            let store = settled(alloc, &source)?;
            beginning_text(alloc, &words, &store)
        }
        None => Ok(String::from_str(alloc, "::")?),
    }
}
