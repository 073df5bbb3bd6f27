//! States, and formulas in them.

use crate::layout::Layout;
use crate::rows::row_value;
use st_form::{Form, Lin};
use st_memory::Memory;
use std::alloc::Global;

/// Where each component is, and the value of each variable. A boolean variable has its value among the truths and 0 among the
/// numbers, any other its value among the numbers and `false` among the truths.
#[derive(Drop, PartialEq, Eq)]
pub struct State {
    pub places: Vec<u8>,
    pub numbers: Vec<i128>,
    pub truths: Vec<bool>,
}

impl State {
    /// An equal state.
    pub fn copy(&self, alloc: Global) -> Result<State, Memory> {
        Ok(State {
            places: Vec::from_slice(alloc, &self.places)?,
            numbers: Vec::from_slice(alloc, &self.numbers)?,
            truths: Vec::from_slice(alloc, &self.truths)?,
        })
    }

    /// The value of a linear form; `None` where it is too large, or a variable has no value.
    pub fn value(&self, form: &Lin) -> Option<i128> {
        row_value(form, &self.numbers)
    }

    /// Whether a boolean variable is true.
    pub fn truth(&self, variable: u32) -> bool {
        self.truths.get(variable as usize) == Some(&true)
    }

    /// Whether control is at a location.
    pub fn is_at(&self, layout: &Layout, location: u32) -> bool {
        match layout.of_location(location) {
            Some(place) => self.places.get(place.component as usize) == Some(&place.number),
            None => false,
        }
    }

    /// Whether a formula is true. A row or an equation whose value is too large is not.
    pub fn satisfies(&self, layout: &Layout, form: &Form) -> bool {
        is_true(form, layout, self)
    }
}

#[cycle(truth)]
fn is_true(form: &Form, layout: &Layout, state: &State) -> bool {
    match form {
        Form::True => true,
        Form::False => false,
        Form::Row(row) => matches!(state.value(row), Some(value) if value >= 0),
        Form::Equal(row) => state.value(row) == Some(0),
        Form::BoolVar(variable) => state.truth(*variable),
        Form::At(location) => state.is_at(layout, *location),
        Form::Not(part) => !is_true(part, layout, state),
        Form::And(parts) => are_true(parts, layout, state),
        Form::Or(parts) => is_one_true(parts, layout, state),
    }
}

#[cycle(truth)]
fn are_true(forms: &[Form], layout: &Layout, state: &State) -> bool {
    for form in forms {
        if !is_true(form, layout, state) {
            return false;
        }
    }
    true
}

#[cycle(truth)]
fn is_one_true(forms: &[Form], layout: &Layout, state: &State) -> bool {
    for form in forms {
        if is_true(form, layout, state) {
            return true;
        }
    }
    false
}
