//! The values that a variable may have: those that a mode gives it as a constant, those that the initial condition says, and both
//! truth values of a boolean variable; each is tried at each location.

use crate::fact::{Constant, Fact};
use crate::fault::FactFault;
use st_form::Form;
use st_linear::Lin;
use st_memory::Memory;
use std::alloc::Global;
use transition_system::{Fts, Mode};

/// How many candidates there may be.
const MOST: usize = 65_536;

/// A value that a variable may have.
type Value = (u32, Constant);

/// Appends the value, unless it is there.
fn push_new(out: &mut Vec<Value>, variable: u32, constant: Constant) -> Result<(), Memory> {
    if !out.contains(&(variable, constant)) {
        out.push((variable, constant))?;
    }
    Ok(())
}

/// Appends the number that an equation of the initial condition gives a variable.
fn push_equation(form: &Lin, out: &mut Vec<Value>) -> Result<(), Memory> {
    let [(variable, factor)] = form.entries() else {
        return Ok(());
    };
    let number = match *factor {
        1 => form.constant().checked_neg(),
        -1 => Some(form.constant()),
        _ => None,
    };
    match number {
        Some(number) => push_new(out, *variable, Constant::Number(number)),
        None => Ok(()),
    }
}

/// Appends the numbers that the parts of the initial condition give.
#[cycle(first)]
fn push_first(form: &Form, out: &mut Vec<Value>) -> Result<(), Memory> {
    match form {
        Form::Equal(f) => push_equation(f, out),
        Form::And(fs) => push_all_first(fs, out),
        Form::True
        | Form::False
        | Form::Row(_)
        | Form::BoolVar(_)
        | Form::At(_)
        | Form::Not(_)
        | Form::Or(_) => Ok(()),
    }
}

#[cycle(first)]
fn push_all_first(forms: &[Form], out: &mut Vec<Value>) -> Result<(), Memory> {
    for form in forms {
        push_first(form, out)?;
    }
    Ok(())
}

/// Appends the numbers that a mode gives.
fn push_given(mode: &Mode, out: &mut Vec<Value>) -> Result<(), Memory> {
    for pair in &mode.change.numbers {
        if pair.1.entries().is_empty() {
            push_new(out, pair.0, Constant::Number(pair.1.constant()))?;
        }
    }
    Ok(())
}

/// Appends both values of each boolean variable.
fn push_truths(truths: &[bool], out: &mut Vec<Value>) -> Result<(), Memory> {
    let mut variable: u32 = 0;
    for truth in truths {
        if *truth {
            out.push((variable, Constant::Truth(true)))?;
            out.push((variable, Constant::Truth(false)))?;
        }
        variable = variable.saturating_add(1);
    }
    Ok(())
}

/// All values that are tried.
fn values(alloc: Global, fts: &Fts) -> Result<Vec<Value>, Memory> {
    let mut out = Vec::new(alloc);
    push_truths(&fts.truths, &mut out)?;
    push_first(&fts.initial, &mut out)?;
    for transition in &fts.transitions {
        for mode in &transition.modes {
            push_given(mode, &mut out)?;
        }
    }
    Ok(out)
}

/// Each value at each of these locations.
pub(crate) fn candidates(alloc: Global, fts: &Fts, places: &[u32]) -> Result<Vec<Fact>, FactFault> {
    let values = values(alloc, fts)?;
    if values.len().saturating_mul(places.len()) > MOST {
        return Err(FactFault::Many);
    }
    let mut out = Vec::new(alloc);
    for place in places {
        for value in &values {
            out.push(Fact {
                place: *place,
                variable: value.0,
                value: value.1,
            })?;
        }
    }
    Ok(out)
}
